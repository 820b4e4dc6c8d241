ghost use Rattle.std.specs.Prelude.{◌≡◌, ℕ, List, Some};
ghost use Rattle.std.specs.List.{AllZip};
ghost use Rattle.sip_header.specs.Parameters.{IsParameter, parameters_in};
ghost use Rattle.sip_header.specs.Via.{IsVia, via_of};
ghost use Rattle.sip_header.specs.declared.parameters.HeaderParameter.{HeaderParameter};
ghost use Rattle.sip_header.specs.declared.via.Via.{Via};
ghost use Rattle.sip_header.specs.CSeq.{IsCSeq, cseq_of};
ghost use Rattle.sip_header.specs.declared.cseq.CSeq.{CSeq};
ghost use Rattle.sip_header.specs.NameAddr.{IsNameAddr, name_addr_of};
ghost use Rattle.sip_header.specs.declared.name_addr.NameAddr.{NameAddr};
ghost use Rattle.sip_header.specs.ContactItem.{IsContact, contact_of};
ghost use Rattle.sip_header.specs.declared.contact_item.ContactItem.{ContactItem};
ghost use Rattle.sip_header.specs.Route.{IsRoute, route_of};

/// A value is read as a CSeq exactly where it writes that: digits, one or more blanks, a token (RFC 3261 20.16).
#[tactic(auto, using(crate::proofs::NumberLaws::read_back, crate::proofs::NumberLaws::is_written))]
pub fn cseq_law()
    ensures read { (value : List ℕ) (cseq : CSeq) → IsCSeq value cseq → cseq_of value ≡ Some cseq }
    ensures written { (value : List ℕ) (cseq : CSeq) → cseq_of value ≡ Some cseq → IsCSeq value cseq }
{}

/// Texts are read as parameters exactly where they write them, one by one (RFC 3261 25.1, generic-param).
pub fn parameters_law()
    ensures read { (texts : List (List ℕ)) (parameters : List HeaderParameter) → AllZip IsParameter texts parameters
        → parameters_in texts ≡ Some parameters }
    ensures written { (texts : List (List ℕ)) (parameters : List HeaderParameter) → parameters_in texts ≡ Some parameters
        → AllZip IsParameter texts parameters }
{}

/// A value is read as a Via exactly where it writes that (RFC 3261 20.42).
pub fn via_law()
    ensures read { (value : List ℕ) (via : Via) → IsVia value via → via_of value ≡ Some via }
    ensures written { (value : List ℕ) (via : Via) → via_of value ≡ Some via → IsVia value via }
{}

/// A value is read as an address exactly where it writes that, in brackets or without (RFC 3261 20.10).
pub fn name_addr_law()
    ensures read { (value : List ℕ) (address : NameAddr) → IsNameAddr value address → name_addr_of value ≡ Some address }
    ensures written { (value : List ℕ) (address : NameAddr) → name_addr_of value ≡ Some address → IsNameAddr value address }
{}

/// A value is read as an item of Contact exactly where it writes that (RFC 3261 20.10).
pub fn contact_law()
    ensures read { (value : List ℕ) (item : ContactItem) → IsContact value item → contact_of value ≡ Some item }
    ensures written { (value : List ℕ) (item : ContactItem) → contact_of value ≡ Some item → IsContact value item }
{}

/// A value is read as an item of Route or Record-Route exactly where it writes an address in brackets (RFC 3261 20.30, 20.34).
pub fn route_law()
    ensures read { (value : List ℕ) (address : NameAddr) → IsRoute value address → route_of value ≡ Some address }
    ensures written { (value : List ℕ) (address : NameAddr) → route_of value ≡ Some address → IsRoute value address }
{}
