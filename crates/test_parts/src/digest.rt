use crate::cases::Row;
use md5::{Digest, Md5};
use sip_digest::{Protection, a1, a1_sha256, answer, answer_sha256};

/// Those of the test suite of RFC 1321, appendix A.5, that `md5` doesn't compute by its definition.
pub(crate) const MD5_VECTORS: &[Row] = &[
    Row::Digest(b"", 0xd41d8cd98f00b204e9800998ecf8427e),
    Row::Digest(b"a", 0x0cc175b9c0f1b6a831c399e269772661),
    Row::Digest(b"message digest", 0xf96b697d7cb7938d525a2f31aaf161d0),
];

pub(crate) fn has_digest(text: &[u8], digest: u128) -> bool {
    Md5::digest(text).as_slice() == digest.to_be_bytes().as_slice()
}

const REALM: &[u8] = b"http-auth@example.org";

const NONCE: &[u8] = b"7ypf/xlj9XXwfDPEoM4URrv/xwf94BcCAzFZH4GiTo0v";

const FIRST_USE: Protection<'static> = Protection {
    nc: b"00000001",
    cnonce: b"f2/wE4q74E6zIJEtWaHKaf5wv/H5QzzpXusqGemxURZJ",
};

fn is_answered() -> bool {
    let user = a1(b"Mufasa", REALM, b"Circle of Life");
    let response = answer(&user, b"GET", b"/dir/index.html", NONCE, Some(FIRST_USE));
    response.as_slice() == b"8ca523f5e9506fed4657c9700eebdbec".as_slice()
}

fn is_answered_by_sha256() -> bool {
    let user = a1_sha256(b"Mufasa", REALM, b"Circle of Life");
    let response = answer_sha256(&user, b"GET", b"/dir/index.html", NONCE, Some(FIRST_USE));
    let wanted = b"753927fa0e85d155564e2e272a28d1802ca10daf4496794697cf8db5856cb6c1";
    response.as_slice() == wanted.as_slice()
}

/// The example of RFC 7616 3.9.1, by MD5 and by SHA-256.
pub(crate) fn both_answers() -> bool {
    is_answered() && is_answered_by_sha256()
}
