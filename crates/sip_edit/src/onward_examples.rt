ghost use Rattle.std.specs.Prelude.{◌≡◌, ◌∷◌, [], codes, length};
ghost use Rattle.sip_message_form.specs.declared.message.Start.TheVariants.{Request};
ghost use Rattle.sip_message_form.specs.Text.{text_of};
ghost use Rattle.sip_route.specs.Examples.{own, sample_realm};
ghost use Rattle.sip_edit.specs.OwnVia.{branch_text, own_via_field, without_top_via};
ghost use Rattle.sip_edit.specs.Onward.{onward_of, onward_uri, written_uri};
ghost use Rattle.sip_edit.specs.OwnRequests.{ack_of, cancel_of};
ghost use Rattle.sip_edit.specs.OnwardExamples;

/// The branch of the first target of the fourth datagram's request, after the boot word 0.
pub fn branch_example()
    ensures { branch_text 0 4 1 ≡ codes "z9hG4bK0000000000000000.4.1" }
{}

/// An INVITE as it goes on to the one binding of its address of record.
pub fn onward_invite_example()
    ensures text { text_of OnwardExamples.onward_invite ≡ OnwardExamples.onward_invite_text }
    ensures length { length OnwardExamples.onward_invite_text ≡ 394 }
{}

/// A MESSAGE as it goes on, without Record-Route.
pub fn onward_message_example()
    ensures text { text_of OnwardExamples.onward_message ≡ OnwardExamples.onward_message_text }
    ensures length { length OnwardExamples.onward_message_text ≡ 321 }
{}

/// The ACK of a 486 to the INVITE that went on, and its CANCEL.
pub fn ack_and_cancel_example()
    ensures ack { text_of (ack_of OnwardExamples.onward_invite (OnwardExamples.busy_with (OnwardExamples.tagged_to ∷ []))) ≡ OnwardExamples.ack_text }
    ensures ack_length { length OnwardExamples.ack_text ≡ 236 }
    ensures cancel { text_of (cancel_of OnwardExamples.onward_invite) ≡ OnwardExamples.cancel_text }
    ensures cancel_length { length OnwardExamples.cancel_text ≡ 235 }
{}

/// What changes of a request to its own Request-URI: this server's Route and the well-formed credentials for its realm
/// go, and the scheme is in lower case, all else of the URI being kept. A Max-Forwards that isn't there comes last, and one that is
/// stays in its place.
pub fn onward_fields_example()
    ensures uri { onward_uri own (OnwardExamples.options []) ≡ codes "sip:a@far.net" }
    ensures kept { written_uri (codes "SIP:9@Host.com;User=phone?a=") ≡ codes "sip:9@Host.com;User=phone?a=" }
    ensures request { onward_of own sample_realm (codes "sip:a@far.net") (codes "z9hG4bK1") (OnwardExamples.options OnwardExamples.changing)
        ≡ record {
          start = Request (codes "OPTIONS") (codes "sip:a@far.net") (codes "SIP/2.0");
          fields = own_via_field own
              (codes "z9hG4bK1") ∷ OnwardExamples.changed;
          body = codes "x";
        } }
    ensures hops { onward_of own sample_realm (codes "sip:a@far.net") (codes "z9hG4bK1")
        (OnwardExamples.options (OnwardExamples.hops (codes "010")))
        ≡ record {
          start = Request (codes "OPTIONS") (codes "sip:a@far.net") (codes "SIP/2.0");
          fields = own_via_field own
              (codes "z9hG4bK1") ∷ OnwardExamples.hops (codes "9");
          body = codes "x";
        } }
    ensures back { without_top_via (onward_of own sample_realm (codes "sip:a@far.net") (codes "z9hG4bK1")
        (OnwardExamples.options OnwardExamples.changing)) ≡ record {
          start = Request (codes "OPTIONS") (codes "sip:a@far.net")
              (codes "SIP/2.0");
          fields = OnwardExamples.changed;
          body = codes "x";
        } }
{}
