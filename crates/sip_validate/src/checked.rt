use sip_header::CoreFields;
use sip_route::Way;
use sip_uri::Uri;

/// What was read of a request that passed every check.
pub struct Checked<'a> {
    pub core: CoreFields<'a>,
    /// Where it goes, without this server's own part of the way.
    pub way: Way<'a>,
    /// The SIP or SIPS URI that it is for: the Request-URI that is left, where that is one.
    pub uri: Option<Uri>,
}

/// Written out, so that it is proved once and not wherever one is dropped.
impl<'a> Drop for Checked<'a> {
    fn drop(self) {
        let Checked {
            core: _,
            way: _,
            uri: _,
        } = self;
    }
}
