//! Worked examples of decisions, of users' tables, and of what is shown and warned of, as contracts that compute.
ghost use Rattle.std.specs.Prelude.{◌≡◌, ◌++◌, [], ◌∷◌, codes, replicate, Some, None, Ok, Err, pos, negsuc};
ghost use Rattle.sip_digest.specs.Answers.{a1_of};
ghost use Rattle.sip_digest.specs.declared.algorithm.Algorithm.TheVariants as By;
ghost use Rattle.sipd_ask.specs.declared.error.QuestionError.TheVariants as Refusal;
ghost use Rattle.sipd_ask.specs.declared.user.UserDigests.TheVariants.{Md5, Both};
ghost use Rattle.sipd_ask.specs.User.{user_table, added_user, table_with, first_line};
ghost use Rattle.sip_config_types.specs.Sample.{sample};
ghost use Rattle.sip_config.specs.Configuration.{stated_in};
ghost use Rattle.sip_config.specs.Examples.{sample_head};
ghost use Rattle.sip_policy.specs.Examples.{mufasas_a1};
ghost use Rattle.sip_policy.specs.declared.decision.Decision.TheVariants.{Via, Deny, Challenge};
ghost use Rattle.sipd_ask.specs.Examples.{answered, asked, mufasas_sha256, with_sha256};
ghost use Rattle.sipd_ask.specs.Show.{shown_lines, key_column, rule_key, clock_text, signed};
ghost use Rattle.sipd_ask.specs.Warnings.{port_warning, register_warning, digest_warning, small_letter_warning};
ghost use Rattle.sipd_ask.specs.Warnings.{any_address_warning};

/// On the sample: a rule without a user allows, a rule denies, none matches.
#[tactic(auto, unfolding(sip_uri::specs::Reading::reading_of, sip_uri::specs::Reading::rest_of))]
pub fn anyone()
    ensures allowed { asked None (codes "INVITE") (codes "help@host.com") ≡ Ok (codes "rule 4 allows: to the bindings of help@host.com") }
    ensures denied { asked None (codes "INVITE") (codes "vault@host.com") ≡ Ok (codes "rule 3 denies: 403") }
    ensures none { asked (Some (codes "alice")) (codes "MESSAGE") (codes "x@other.net") ≡ Ok (codes "no rule matches: denied, 403, rule 0") }
    ensures challenged { asked None (codes "INVITE") (codes "alice@host.com")
        ≡ Ok (codes "challenged, 407: rule 6 may match once the caller has proved who he is") }
{}

/// A user of the group staff calls by the gateway, and another user, by the same words, nobody; a URI says the same as an
/// address, without case of the host.
#[tactic(auto, unfolding(sip_uri::specs::Reading::reading_of, sip_uri::specs::Reading::rest_of))]
pub fn users()
    ensures gateway { asked (Some (codes "Mufasa")) (codes "INVITE") (codes "911@host.com") ≡ Ok (codes "rule 5 allows: to the hop gw, 127.0.0.1:5090") }
    ensures nobody { asked (Some (codes "alice")) (codes "INVITE") (codes "911@host.com")
        ≡ Ok (codes "rule 6 allows: 404, no user of an own domain: 911@host.com") }
    ensures uri { asked (Some (codes "alice")) (codes "INVITE") (codes "sip:%68elp@HOST.com:5070;transport=udp")
        ≡ Ok (codes "rule 4 allows: to the bindings of help@host.com") }
{}

/// A user registers his own address and lists it; nobody is asked for proof with 401.
#[tactic(auto, unfolding(sip_uri::specs::Reading::reading_of, sip_uri::specs::Reading::rest_of))]
pub fn registration()
    ensures registers { asked (Some (codes "alice")) (codes "register") (codes "alice@host.com")
        ≡ Ok (codes "rule 1 allows: to the registrar, for alice@host.com") }
    ensures lists { asked (Some (codes "alice")) (codes "list") (codes "alice@host.com")
        ≡ Ok (codes "rule 2 allows: to the registrar, for alice@host.com") }
    ensures other { asked (Some (codes "alice")) (codes "register") (codes "help@host.com") ≡ Ok (codes "no rule matches: denied, 403, rule 0") }
    ensures unproven { asked None (codes "register") (codes "help@host.com")
        ≡ Ok (codes "challenged, 401: rule 1 may match once the caller has proved who he is") }
{}

/// What is sent on to `sips:`, whatever stands behind it, or to another scheme, is answered 416, whatever the rules say of its address
/// of record. A REGISTER names whom it is for in To, where `sips:` is taken, and another scheme is answered 400, as is what begins as a
/// SIP URI and is none.
#[tactic(auto, unfolding(sip_uri::specs::Reading::reading_of, sip_uri::specs::Reading::rest_of))]
pub fn before_rules()
    ensures allowed { asked None (codes "INVITE") (codes "sips:help@host.com") ≡ Ok (codes "416 before any rule: a Request-URI is sip:") }
    ensures denied { asked None (codes "INVITE") (codes "SIPS:vault@host.com") ≡ Ok (codes "416 before any rule: a Request-URI is sip:") }
    ensures registers { asked (Some (codes "alice")) (codes "register") (codes "sips:alice@host.com")
        ≡ Ok (codes "rule 1 allows: to the registrar, for alice@host.com") }
    ensures capitals { asked None (codes "INVITE") (codes "SIP:vault@host.com") ≡ Ok (codes "rule 3 denies: 403") }
    ensures telephone { asked None (codes "INVITE") (codes "tel:+1-201-555-0123") ≡ Ok (codes "416 before any rule: a Request-URI is sip:") }
    ensures registers_telephone { asked None (codes "register") (codes "tel:+1-201-555-0123")
        ≡ Ok (codes "400 before any rule: To of a REGISTER is sip: or sips:") }
    ensures no_sips_uri { asked None (codes "INVITE") (codes "SIPS:@host.com") ≡ Ok (codes "416 before any rule: a Request-URI is sip:") }
    ensures no_uri { asked None (codes "INVITE") (codes "sip:@host.com") ≡ Ok (codes "400 before any rule: the Request-URI is no URI") }
    ensures registers_no_uri { asked None (codes "register") (codes "sips:@host.com")
        ≡ Ok (codes "400 before any rule: To of a REGISTER is no URI") }
{}

/// A method with a small letter is no method of a rule, and isn't taken for another one; `register` and `list` are words.
pub fn small_letters()
    ensures all { asked None (codes "invite") (codes "help@host.com") ≡ Err Refusal.SmallLetter }
    ensures one { asked None (codes "INVITe") (codes "help@host.com") ≡ Err Refusal.SmallLetter }
    ensures word { asked None (codes "Register") (codes "help@host.com") ≡ Err Refusal.SmallLetter }
    ensures no_method { asked None (codes "in vite") (codes "help@host.com") ≡ Err Refusal.BadMethod }
    ensures registers { asked None (codes "REGISTER") (codes "help@host.com") ≡ Err Refusal.BadMethod }
    ensures cancels { asked None (codes "CANCEL") (codes "help@host.com") ≡ Err Refusal.BadMethod }
{}

/// A method that isn't sent on, a user who isn't configured, and a target that is none are refused, in this order.
#[tactic(auto, unfolding(sip_uri::specs::Reading::reading_of, sip_uri::specs::Reading::rest_of))]
pub fn refusals()
    ensures method { asked (Some (codes "zazu")) (codes "ACK") (codes "a b") ≡ Err Refusal.BadMethod }
    ensures user { asked (Some (codes "zazu")) (codes "INVITE") (codes "a b") ≡ Err Refusal.UnknownUser }
    ensures target { asked None (codes "INVITE") (codes "a b") ≡ Err Refusal.BadTarget }
    ensures no_scheme { asked None (codes "INVITE") (codes "+1:help@host.com") ≡ Err Refusal.BadTarget }
    ensures two_words { asked None (codes "INVITE") (codes "sip:help me@host.com") ≡ Err Refusal.BadTarget }
    ensures no_host { asked None (codes "INVITE") (codes "help@") ≡ Err Refusal.BadTarget }
{}

/// An answer says the rule in the words of the file, and the minute that was taken; where no rule matches, or a check refuses before any
/// rule is asked, no rule is said.
#[tactic(auto, unfolding(sip_uri::specs::Reading::reading_of, sip_uri::specs::Reading::rest_of))]
pub fn whole_answers()
    ensures allowed { answered (Some (codes "Mufasa")) (codes "INVITE") (codes "911@host.com") ≡ Ok (record {
      text = codes "rule 5 allows: to the hop gw, 127.0.0.1:5090\nrule 5: group staff, send INVITE, 9*@host.com: via gw\nminute 605, 10:05\n";
      decision = Some (Via 5 0);
    }) }
    ensures denied { answered None (codes "INVITE") (codes "vault@host.com") ≡ Ok (record {
      text = codes "rule 3 denies: 403\nrule 3: anyone, send *, vault@host.com: deny\nminute 605, 10:05\n";
      decision = Some (Deny 3);
    }) }
    ensures none { answered (Some (codes "alice")) (codes "MESSAGE") (codes "x@other.net") ≡ Ok (record {
      text = codes "no rule matches: denied, 403, rule 0\nminute 605, 10:05\n";
      decision = Some (Deny 0);
    }) }
    ensures challenged { answered None (codes "INVITE") (codes "alice@host.com") ≡ Ok (record {
      text = codes "challenged, 407: rule 6 may match once the caller has proved who he is\nrule 6: proven, send *, @host.com: allow\nminute 605, 10:05\n";
      decision = Some Challenge;
    }) }
    ensures before { answered None (codes "INVITE") (codes "tel:+1-201-555-0123") ≡ Ok (record {
      text = codes "416 before any rule: a Request-URI is sip:\n";
      decision = None;
    }) }
{}

/// The table of the user of RFC 2617 3.5, whose digest stands there.
pub fn table_of_mufasa()
    ensures md5 { user_table (codes "Mufasa") (codes "testrealm@host.com") (codes "Circle Of Life") Md5
        ≡ Ok (codes "[[user]]\nname = \"Mufasa\"\na1 = \"939e7578ed9e3c518a452acee763bce9\"\n") }
    ensures both { user_table (codes "Mufasa") (codes "testrealm@host.com") (codes "Circle Of Life") Both
        ≡ Ok (codes "[[user]]\nname = \"Mufasa\"\na1 = \"939e7578ed9e3c518a452acee763bce9\"\na1_sha256 = \""
        ++ a1_of By.Sha256 (codes "Mufasa") (codes "testrealm@host.com") (codes "Circle Of Life") ++ codes "\"\n") }
{}

/// The digest by SHA-256 of the same words.
pub fn sha256_of_mufasa()
    ensures { a1_of By.Sha256 (codes "Mufasa") (codes "testrealm@host.com") (codes "Circle Of Life") ≡ mufasas_sha256 }
{}

/// Behind the sample's first keys, the table states that user.
pub fn table_is_read()
    ensures { stated_in (sample_head ++ table_with Both (codes "Mufasa") mufasas_a1 mufasas_sha256)
        ≡ Ok (record sample {
          users = record { name = codes "Mufasa"; a1 = mufasas_a1; a1_sha256 = Some mufasas_sha256; groups = [] } ∷ [];
          rules = [];
          hops = [];
          addresses = [];
        }) }
{}

/// A user who is added to the sample has the digest by MD5 alone, as its users have; as soon as one of them has both, so has he.
pub fn added_to_the_sample()
    ensures without { added_user sample (codes "zazu") None (codes "x") ≡ user_table (codes "zazu") (codes "testrealm@host.com") (codes "x") Md5 }
    ensures with_one { added_user (with_sha256 sample) (codes "zazu") None (codes "x")
        ≡ user_table (codes "zazu") (codes "testrealm@host.com") (codes "x") Both }
    ensures same_realm { added_user sample (codes "zazu") (Some (codes "testrealm@host.com")) (codes "x")
        ≡ user_table (codes "zazu") (codes "testrealm@host.com") (codes "x") Md5 }
    ensures other_realm { added_user sample (codes "alice") (Some (codes "office")) (codes "x") ≡ Err Refusal.OtherRealm }
    ensures taken { added_user sample (codes "alice") None (codes "") ≡ Err Refusal.TakenName }
{}

/// No table with a `:` in the realm, with a name or a realm that no configuration takes, without a password, or with one of more
/// than 1,024 bytes.
pub fn no_table()
    ensures name { user_table (codes "a b") (codes "office") (codes "x") Md5 ≡ Err Refusal.BadName }
    ensures name_with_colon { user_table (codes "a:b") (codes "office") (codes "x") Md5 ≡ Err Refusal.BadName }
    ensures realm { user_table (codes "alice") (codes "the \"office\"") (codes "x") Md5 ≡ Err Refusal.BadRealm }
    ensures realm_with_colon { user_table (codes "alice") (codes "office:1") (codes "x") Md5 ≡ Err Refusal.BadRealm }
    ensures password { user_table (codes "alice") (codes "office") (codes "") Md5 ≡ Err Refusal.EmptyPassword }
    ensures long_password { user_table (codes "alice") (codes "office") (replicate 1025 97) Md5 ≡ Err Refusal.LongPassword }
{}

/// A password is the first line, whichever its end is, with its blanks.
pub fn first_lines()
    ensures lf { first_line (codes " wonder land \nmore\n") ≡ codes " wonder land " }
    ensures crlf { first_line (codes "wonderland\r\n") ≡ codes "wonderland" }
    ensures end { first_line (codes "wonderland") ≡ codes "wonderland" }
    ensures none { first_line (codes "\r\nmore") ≡ codes "" }
{}

/// The sample, line by line.
pub fn sample_is_shown()
    ensures { shown_lines sample ≡ codes "realm        testrealm@host.com\nhost         sip.host.com\nport         5060\n"
        ++ codes "address      127.0.0.1:5060\noffset       0\ndomain       host.com\n"
        ++ codes "user         Mufasa, group staff\nuser         alice\nuser         help\nhop          gw at 127.0.0.1:5090\n"
        ++ codes "host_address pc.host.com:5060 at 127.0.0.1:5091\nrule 1:      proven, register, self: allow\n"
        ++ codes "rule 2:      proven, list, self: allow\nrule 3:      anyone, send *, vault@host.com: deny\n"
        ++ codes "rule 4:      anyone, send *, help@host.com: allow\nrule 5:      group staff, send INVITE, 9*@host.com: via gw\n"
        ++ codes "rule 6:      proven, send *, @host.com: allow\n"
        ++ codes "warning: host is no IPv4 address and has no host_address: phones need DNS for it\n" }
{}

/// A key has thirteen bytes with its blanks; one that is longer has one blank behind it.
pub fn keys_are_shown()
    ensures key { key_column (codes "host") ≡ codes "host         " }
    ensures longest { key_column (codes "host_address") ≡ codes "host_address " }
    ensures rule { key_column (rule_key 12) ≡ codes "rule 12:     " }
    ensures longer { key_column (rule_key 1000000) ≡ codes "rule 1000000: " }
{}

/// Minutes have two digits, and offsets behind UTC a sign.
pub fn numbers_are_shown()
    ensures morning { clock_text 485 ≡ codes "8:05" }
    ensures midnight { clock_text 0 ≡ codes "0:00" }
    ensures last { clock_text 1439 ≡ codes "23:59" }
    ensures behind { signed (negsuc 299) ≡ codes "-300" }
    ensures ahead { signed (pos 60) ≡ codes "60" }
{}

/// Nobody may register without a rule; another port than the one that is bound, a method in small letters, users with different
/// digests and an address where nobody can send are told.
pub fn warnings_are_told()
    ensures rules { register_warning [] ≡ codes "warning: no rule lets anybody register\n" }
    ensures port { port_warning 5070 5060 ≡ codes "warning: port isn't the port of address\n" }
    ensures same { port_warning 5060 5060 ≡ [] }
    ensures small { small_letter_warning 7 (codes "invite") ≡ codes "warning: rule 7 is for a method that isn't in capitals, as no phone sends it\n" }
    ensures capitals { small_letter_warning 7 (codes "INVITE") ≡ [] }
    ensures digests { digest_warning (with_sha256 sample).users
        ≡ codes "warning: some users have a1_sha256 and others don't, and every phone is offered both digests\n" }
    ensures md5_alone { digest_warning sample.users ≡ [] }
    ensures any_address { any_address_warning (codes "0.0.0.0") ≡ codes "warning: host is 0.0.0.0, where no phone can send to\n" }
    ensures address { any_address_warning (codes "192.0.2.10") ≡ [] }
{}
