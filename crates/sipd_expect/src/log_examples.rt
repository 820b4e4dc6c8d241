//! Worked examples, as contracts that compute.
ghost use Rattle.std.specs.Prelude.{◌≡◌, codes, Some, None};
ghost use Rattle.sip_audit.specs.declared.record.AuditOutcome.TheVariants.{Challenge, Deny, Sent, Answer};
ghost use Rattle.sipd_expect.specs.LogExamples.{call, registration, told, told_at};

/// What is decided alike isn't told: nobody's call and a user's, one that goes by a hop, one that reaches nobody, a denial, a challenge, and
/// a registration.
pub fn alike()
    ensures anyone { told (call None (codes "help") (Sent 4 1)) ≡ None }
    ensures user { told (call (Some (codes "alice")) (codes "Mufasa") (Sent 6 2)) ≡ None }
    ensures hop { told (call (Some (codes "Mufasa")) (codes "911") (Sent 5 1)) ≡ None }
    ensures no_phone { told (call (Some (codes "alice")) (codes "Mufasa") (Answer 6 480)) ≡ None }
    ensures denied { told (call None (codes "vault") (Deny 3)) ≡ None }
    ensures challenged { told (call None (codes "alice") (Challenge 407)) ≡ None }
    ensures registered { told (registration (Some (codes "alice")) (codes "alice") (Answer 1 200)) ≡ None }
    ensures no_rule { told (registration (Some (codes "alice")) (codes "help") (Deny 0)) ≡ None }
{}

/// What is decided otherwise is told: let through and now denied, challenged and now let through, denied by no rule and now challenged, by a
/// rule of another number.
pub fn otherwise()
    ensures denied { told (call (Some (codes "Mufasa")) (codes "vault") (Sent 6 1)) ≡ Some (codes "line -> at 0:01, rule 3 denies: 403\n") }
    ensures allowed { told (call None (codes "help") (Challenge 407)) ≡ Some (codes "line -> at 0:01, rule 4 allows: to the bindings\n") }
    ensures challenged { told (call None (codes "alice") (Deny 0))
        ≡ Some (codes "line -> at 0:01, challenged, 407: rule 6 may match once the caller has proved who he is\n") }
    ensures other_rule { told (call None (codes "help") (Sent 7 1)) ≡ Some (codes "line -> at 0:01, rule 4 allows: to the bindings\n") }
    ensures by_none { told (registration (Some (codes "alice")) (codes "help") (Answer 8 200))
        ≡ Some (codes "line -> at 0:01, no rule matches: denied, 403, rule 0\n") }
{}

/// A call that was sent on is told where its user is gone, since it would get a 404 now; and one that got a 404 where there is such a
/// user now. A REGISTER's 404 may be that of its Request-URI, which a line doesn't have.
pub fn users_come_and_go()
    ensures gone { told (call (Some (codes "alice")) (codes "scar") (Sent 6 1))
        ≡ Some (codes "line -> at 0:01, rule 6 allows: 404, no user of an own domain\n") }
    ensures no_phone { told (call (Some (codes "alice")) (codes "scar") (Answer 6 480))
        ≡ Some (codes "line -> at 0:01, rule 6 allows: 404, no user of an own domain\n") }
    ensures come { told (call (Some (codes "alice")) (codes "Mufasa") (Answer 6 404))
        ≡ Some (codes "line -> at 0:01, rule 6 allows: to the bindings\n") }
    ensures nobody { told (call (Some (codes "alice")) (codes "scar") (Answer 6 404)) ≡ None }
    ensures registered { told (registration (Some (codes "alice")) (codes "alice") (Answer 1 404)) ≡ None }
{}

/// A user who isn't configured is nobody.
pub fn unknown_user()
    ensures { told (call (Some (codes "zazu")) (codes "alice") (Sent 6 1))
        ≡ Some (codes "line -> at 0:01, challenged, 407: rule 6 may match once the caller has proved who he is\n") }
{}

/// The minute is the office's: at 7:00 UTC it is 8:00 there, and the rule holds, a millisecond before it doesn't.
pub fn minutes()
    ensures holds { told_at 25200000 (Sent 4 1) ≡ None }
    ensures before { told_at 25199999 (Sent 4 1)
        ≡ Some (codes "line -> at 7:59, challenged, 407: rule 6 may match once the caller has proved who he is\n") }
{}
