ghost use Rattle.std.specs.Prelude.{◌≡◌, Some, None, codes};
ghost use Rattle.sip_digest.specs.Answers.{a1_of, a2_of, answer_of};
ghost use Rattle.sip_digest.specs.Protection.{count_in};
ghost use Rattle.sip_digest.specs.declared.algorithm.Algorithm.TheVariants as By;

/// The worked example of RFC 2617 3.5, from its user to its response.
pub fn digest_vector()
    ensures a1 { a1_of By.Md5 (codes "Mufasa") (codes "testrealm@host.com") (codes "Circle Of Life") ≡ codes "939e7578ed9e3c518a452acee763bce9" }
    ensures a2 { a2_of By.Md5 (codes "GET") (codes "/dir/index.html") ≡ codes "39aff3a2bab6126f332b942af96d3366" }
    ensures answer { answer_of By.Md5 (codes "939e7578ed9e3c518a452acee763bce9") (codes "GET") (codes "/dir/index.html")
        (codes "dcd98b7102dd2f0e8b11d0f600bfb0c093") (Some (record { nc = codes "00000001"; cnonce = codes "0a4f113b" }))
        ≡ codes "6629fae49393a05397450978507c4ef1" }
{}

/// The example of RFC 7616 3.9.1 by SHA-256.
pub fn sha256_vector()
    ensures { answer_of By.Sha256 (a1_of By.Sha256 (codes "Mufasa") (codes "http-auth@example.org") (codes "Circle of Life")) (codes "GET")
        (codes "/dir/index.html") (codes "7ypf/xlj9XXwfDPEoM4URrv/xwf94BcCAzFZH4GiTo0v")
        (Some (record { nc = codes "00000001"; cnonce = codes "f2/wE4q74E6zIJEtWaHKaf5wv/H5QzzpXusqGemxURZJ" }))
        ≡ codes "753927fa0e85d155564e2e272a28d1802ca10daf4496794697cf8db5856cb6c1" }
{}

/// A count is eight hexadecimal digits, in either case.
pub fn count_example()
    ensures ten { count_in (codes "0000000A") ≡ Some 10 }
    ensures short { count_in (codes "1") ≡ None }
    ensures no_digit { count_in (codes "+0000001") ≡ None }
{}
