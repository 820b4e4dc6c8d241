ghost use Rattle.std.specs.Prelude.{◌≡◌, [], ◌∷◌, ◌++◌, codes};
ghost use Rattle.sipd_capture.specs.Headers.{checksum, file_head, frame, udp_head};
ghost use Rattle.sipd_capture.specs.Hiding.{hidden};
ghost use Rattle.sip_uri.specs.declared.addr.Addr.{Addr};

/// The checksum of a header of 115 bytes in all, from 192.168.0.1 to 192.168.0.199, of UDP, with 64 hops, which isn't cut: the numbers 4500 0073
/// 0000 4000 4011 c0a8 0001 c0a8 00c7 add up to 2479c, which is 479e, and its complement b861. What a capture begins with; a UDP header.
pub fn frame_example()
    ensures checksum { checksum 115 (192 ∷ 168 ∷ 0 ∷ 1 ∷ []) (192 ∷ 168 ∷ 0 ∷ 199 ∷ []) ≡ 47201 }
    ensures file { file_head ≡ 212 ∷ 195 ∷ 178 ∷ 161 ∷ 2 ∷ 0 ∷ 4 ∷ 0 ∷ 0 ∷ 0 ∷ 0 ∷ 0 ∷ 0 ∷ 0 ∷ 0 ∷ 0 ∷ 0 ∷ 0 ∷ 4 ∷ 0 ∷ 101 ∷ 0 ∷ 0 ∷ 0 ∷ [] }
    ensures udp { udp_head 5060 5062 300 ≡ 19 ∷ 196 ∷ 19 ∷ 198 ∷ 1 ∷ 44 ∷ 0 ∷ 0 ∷ [] }
{}

/// What is hidden of a request with credentials and a body; the same where its field is folded, or none of the usual form.
pub fn hiding_example()
    ensures usual { hidden (codes "BYE sip:b SIP/2.0\r\nAuthorization: Digest username=\"al\", qop=auth,nc=1\r\nTo: <sip:b>\r\n\r\nv=0\r\ns=1\r\n")
        ≡ codes "BYE sip:b SIP/2.0\r\nAuthorization: Digest username=\"xx\", qop=xxxx,nc=x\r\nTo: <sip:b>\r\n\r\nxxx\r\nxxx\r\n" }
    ensures folded { hidden (codes "proxy-authorization : Digest\r\n response=\"0f\"\r\nTo: b\r\n") ≡ codes "proxy-authorization : xxxxxx\r\n xxxxxxxxx\"xx\"\r\nTo: b\r\n" }
    ensures basic { hidden (codes "Authorization: Basic YTpi\r\n") ≡ codes "Authorization: xxxxx xxxx\r\n" }
{}
