ghost use Rattle.std.specs.Prelude.{◌≡◌, ℕ, true, map, List};
ghost use Rattle.sip_uri.specs.declared.uri.Uri.{Uri};
ghost use Rattle.sip_hops.specs.declared.host_address.HostAddress.{HostAddress};
ghost use Rattle.sip_hops.specs.declared.hop.Hop.{Hop};
ghost use Rattle.sip_policy.specs.declared.decision.Decision.{Decision};
ghost use Rattle.sip_targets.specs.Target.{target_for};
ghost use Rattle.sip_targets.specs.Targets.{targets_of, target_list};

/// A request that is allowed to a configured user's address goes to every live contact, in their order.
pub fn each_contact_is_a_target()
    ensures { (id : ℕ) (request_uri : Uri) (contacts : List Uri) (hops : List Hop) (addresses : List HostAddress)
        → target_list (targets_of (Decision.Allow id) true request_uri contacts hops addresses)
        ≡ map (target_for addresses) contacts }
{}
