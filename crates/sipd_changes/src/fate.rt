/// What becomes of users, or of rules.
#[derive(Clone, Copy)]
pub(crate) enum Fate {
    More,
    Fewer,
    Changed,
}
