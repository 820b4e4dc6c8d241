ghost use Rattle.std.specs.Prelude.{◌≡◌, [], ◌∷◌, codes, true};
ghost use Rattle.sip_replay_print.specs.Print.{head_text};

/// The line before the two bytes of a packet.
pub fn head_text_example()
    ensures { head_text 1000
        (record {
          to = record { ip = 127 ∷ 0 ∷ 0 ∷ 1 ∷ []; port = 5062 };
          bytes = codes "OK";
          ticket = record { datagram = 1; branch = 0 };
          again = true;
        }) ≡ codes "packet 1000 127.0.0.1:5062 1/0 again 2\n" }
{}
