/// The hash of an answer: MD5 (RFC 2617 3.2.1), or SHA-256 (RFC 8760 2.1).
#[derive(Clone, Copy)]
pub enum Algorithm {
    Md5,
    Sha256,
}
