/// What is asked about a configuration.
#[derive(Clone, Copy)]
pub struct DecideQuestion<'a> {
    /// The name of the user who is proven to ask; without one nobody is proven.
    pub user: Option<&'a [u8]>,
    /// The minute of the day, 0 to 1439, by the configured offset from UTC.
    pub minute: u16,
    /// What is asked: `register`, `list`, or the method of a request that is to be sent on.
    pub operation: &'a [u8],
    /// For whom: `USER@HOST`, or a SIP or SIPS URI.
    pub target: &'a [u8],
}
