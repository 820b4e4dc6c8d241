ghost use Rattle.std.specs.Prelude.{◌≡◌, ℕ, List};
ghost use Rattle.sip_message_fields.specs.declared.field.Field.{Field};
ghost use Rattle.sip_message_fields.specs.declared.field_name.FieldName.TheVariants as Name;
ghost use Rattle.sip_message_fields.specs.Values.{values_of};
ghost use Rattle.sip_route.specs.declared.own.Own.{Own};
ghost use Rattle.sip_route.specs.Way.{way_from};
ghost use Rattle.sip_route.specs.Routes.{way_by};

/// Of its fields the way of a request needs the values of Route alone (RFC 3261 16.4).
#[tactic(auto, using(crate::proofs::Left::way_is))]
pub fn routes_alone()
    ensures { (own : Own) (uri : List ℕ) (fields : List Field) → way_from own uri fields ≡ way_by own uri (values_of Name.Route fields) }
{}
