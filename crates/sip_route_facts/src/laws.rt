ghost use Rattle.std.specs.Prelude.{◌≡◌, ℕ, List};
ghost use Rattle.sip_message_fields.specs.declared.field_name.FieldName.TheVariants as Name;
ghost use Rattle.sip_message_fields.specs.Values.{with_first};
ghost use Rattle.sip_message_form.specs.declared.message.Message.{Message};
ghost use Rattle.sip_route.specs.declared.own.Own.{Own};
ghost use Rattle.sip_route.specs.declared.routes_kept.RoutesKept.{RoutesKept};
ghost use Rattle.sip_route.specs.RoutesKept.{fields_kept};
ghost use Rattle.sip_route.specs.Way.{fields_left, request_uri};
ghost use Rattle.sip_route_facts.specs.RouteFacts.{facts_in, kept_by};

/// The Routes that are kept by what decides that of a message leave exactly the fields that are left without a server's
/// own part of the way, whatever value the top Via gets (RFC 3261 16.4).
pub fn kept_routes_are_left()
    ensures { (own : Own) (m : Message) (kept : RoutesKept) (via : List ℕ) → kept ≡ kept_by own (facts_in m)
        → fields_kept kept (with_first Name.Via via m.fields) ≡ fields_left own (request_uri m.start) (with_first Name.Via via m.fields) }
{}
