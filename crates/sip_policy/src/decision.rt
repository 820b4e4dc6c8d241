/// What policy decides about a request. The first numbers are those of the deciding rules; 0 is no rule's.
#[derive(Clone, Copy, PartialEq, Eq)]
pub enum Decision {
    Allow(u32),
    /// To the hop at this place of the configured list, counted from 0.
    Via(u32, usize),
    /// By this rule, or by none: 0.
    Deny(u32),
    /// The one who asks has to prove to be a user first.
    Challenge,
}
