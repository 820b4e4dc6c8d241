ghost use Rattle.std.specs.Prelude.{◌≡◌, ◌≤◌, ℕ, true, false, List, [], ◌++◌, length, take, codes, Option, Some};
ghost use Rattle.sip_uri.specs.declared.uri.Uri.{Uri};
ghost use Rattle.sip_uri.specs.Aor.{aor_of};
ghost use Rattle.sip_uri.specs.Reading.{reading_of};
ghost use Rattle.sip_policy.specs.declared.decision.Decision.{Decision};
ghost use Rattle.sip_policy.specs.declared.operation.Operation.{Operation};
ghost use Rattle.sip_policy.specs.declared.user.User.{User};
ghost use Rattle.sip_policy.specs.User.{is_users_address};
ghost use Rattle.sip_targets.specs.Targets.{targets_of};
ghost use Rattle.sip_config_types.specs.declared.config.Config.{Config};
ghost use Rattle.sip_validate.specs.UncheckedRequest.{UncheckedRequest};
ghost use Rattle.sip_validate.specs.Faults.{is_bad};
ghost use Rattle.sip_validate.specs.Refusal.{has_other_version, refusal};
ghost use Rattle.sipd_ask.specs.Decide.{is_bad_before, is_refused_before};
ghost use Rattle.sipd_ask.specs.Destination.{destination_of, targets_there};
ghost use Rattle.sipd_ask.specs.Fronts.{front_before};
ghost use Rattle.sipd_ask.specs.Show.{key_column, user_line};
ghost use Rattle.sipd_ask.specs.User.{without_cr, first_line, user_table};
ghost use Rattle.sipd_ask.specs.declared.user.UserDigests.{UserDigests};

/// Where a request that is sent on goes, whatever policy decided about it, is where the server sends it: with any live
/// contacts, the targets are the same.
pub fn destination_is_the_targets()
    ensures { (config : Config) (method : List ℕ) (uri : Uri) (decision : Decision) (contacts : List Uri)
        → targets_there config (destination_of config (Operation.Send method) (aor_of uri) decision) uri contacts
        ≡ targets_of decision (is_users_address config.users config.own.domains (aor_of uri)) uri contacts config.hops config.addresses }
{}

/// What is said to be answered 416 before any rule the server answers so: each request with that Request-URI, once this
/// server's own part of its way is taken off, but a bad one and one of another version, which are refused for that.
pub fn refused_by_the_server()
    ensures { (request : UncheckedRequest) (method : List ℕ)
        → is_refused_before (Operation.Send method) request.way.uri (reading_of request.way.uri) ≡ true
        → is_bad request ≡ false → has_other_version request ≡ false → refusal request ≡ Some (416, []) }
{}

/// What is said to be answered 400 before any rule where it is sent on the server answers so: each request that came with that
/// Request-URI.
pub fn bad_for_the_server()
    ensures { (request : UncheckedRequest) (method : List ℕ)
        → is_refused_before (Operation.Send method) request.uri (reading_of request.uri) ≡ false
        → is_bad_before request.uri (reading_of request.uri) ≡ true → refusal request ≡ Some (400, []) }
{}

/// What is said to a password of which no more than 1,026 bytes of its line were read is what is said to the whole line's.
pub fn read_so_far()
    ensures { (name realm text : List ℕ) (digests : UserDigests)
        → user_table name realm (without_cr (take 1026 (front_before 10 text))) digests ≡ user_table name realm (first_line text) digests }
{}

/// What is shown of a user doesn't depend on the digests.
pub fn no_digest_is_shown()
    ensures { (user : User) (a1 : List ℕ) (a1_sha256 : Option (List ℕ))
        → user_line (record user { a1 = a1; a1_sha256 = a1_sha256 }) ≡ user_line user }
{}

/// The values of what is shown begin in one column: a key of up to twelve bytes, as `host_address` has, takes thirteen with its blanks.
/// A longer one, that of a rule whose number has seven digits or more, has one blank behind it.
pub fn values_begin_in_one_column()
    ensures column { (key : List ℕ) → length key ≤ 12 → length (key_column key) ≡ 13 }
    ensures longer { (key : List ℕ) → 12 ≤ length key → key_column key ≡ key ++ codes " " }
{}
