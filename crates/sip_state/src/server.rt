use sip_config_types::Config;

/// A server: what it was configured with, and the word that its branches and tags begin with.
pub struct Server {
    pub config: Config,
    pub word: u64,
}

/// Written out, so that it is proved once and not wherever one is dropped.
impl Drop for Server {
    fn drop(self) {
        let Server { config: _, word: _ } = self;
    }
}
