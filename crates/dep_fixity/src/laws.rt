//! Published texts, as the definitions compute them.
ghost use Rattle.std.specs.Prelude.{◌≡◌, ◌++◌, List, [], ◌∷◌, Some, None, codes};
ghost use Rattle.base64.specs.GeneralPurpose.{encode_of};
ghost use Rattle.base64.specs.Engines.{standard};
ghost use Rattle.hex.specs.Hex.{encode_lower, encode_upper};
ghost use Rattle.sha2.specs.Sha256.{sha256};
ghost use Rattle.sha2.specs.Sha512.{sha512};
ghost use Rattle.dep_fixity.specs.Examples.{abc_sha256_in_base64, abc_sha512_in_base64, abc_sha512_in_digits, long_message, long_message_sha512};
ghost use Rattle.dep_fixity.specs.Fixity.{digest_field, none_promised, octets_of};

/// The test vectors of RFC 4648, section 10, for base64.
pub fn base64_of_rfc4648()
    ensures none { encode_of standard [] ≡ [] }
    ensures f { encode_of standard (codes "f") ≡ codes "Zg==" }
    ensures fo { encode_of standard (codes "fo") ≡ codes "Zm8=" }
    ensures foo { encode_of standard (codes "foo") ≡ codes "Zm9v" }
    ensures foobar { encode_of standard (codes "foobar") ≡ codes "Zm9vYmFy" }
{}

/// The last test vector of RFC 4648, section 10, for base16, whose digits are in upper case there.
pub fn base16_of_rfc4648()
    ensures upper { encode_upper (codes "foobar") ≡ codes "666F6F626172" }
    ensures lower { encode_lower (codes "foobar") ≡ codes "666f6f626172" }
{}

/// The same texts, as they are read.
pub fn octets_of_rfc4648()
    ensures base64 { octets_of 6 (codes "Zm9vYmFy") ≡ Some (codes "foobar") }
    ensures padded { octets_of 4 (codes "Zm9vYg==") ≡ Some (codes "foob") }
    ensures upper { octets_of 6 (codes "666F6F626172") ≡ Some (codes "foobar") }
    ensures lower { octets_of 6 (codes "666f6f626172") ≡ Some (codes "foobar") }
    ensures unpadded { octets_of 4 (codes "Zm9vYg") ≡ None }
{}

/// The digests of FIPS 180-4's examples of one block and of two, and that of no octets.
pub fn sha256_of_examples()
    ensures none { encode_lower (sha256 []) ≡
        codes "e3b0c44298fc1c149afbf4c8996fb92427ae41e4649b934ca495991b7852b855" }
    ensures abc { encode_lower (sha256 (codes "abc")) ≡
        codes "ba7816bf8f01cfea414140de5dae2223b00361a396177a9cb410ff61f20015ad" }
    ensures long { encode_lower
        (sha256 (codes "abcdbcdecdefdefgefghfghighijhijkijkljklmklmnlmnomnopnopq")) ≡
        codes "248d6a61d20638b8e5c026930c3e6039a33ce45964ff2167f6ecedd419db06c1" }
{}

/// The same of SHA-512, whose message of two blocks has 112 octets.
pub fn sha512_of_examples()
    ensures none { encode_lower (sha512 []) ≡
        codes "cf83e1357eefb8bdf1542850d66d8007d620e4050b5715dc83f4a921d36ce9ce"
        ++ codes "47d0d13c5d85f2b0ff8318d2877eec2f63b931bd47417a81a538327af927da3e" }
    ensures abc { encode_lower (sha512 (codes "abc")) ≡
        codes "ddaf35a193617abacc417349ae20413112e6fa4e89a97ea20a9eeee64b55d39a"
        ++ codes "2192992a274fc1a836ba3c23a3feebbd454d4423643ce80e2a9ac94fa54ca49f" }
    ensures long { encode_lower (sha512 long_message) ≡ long_message_sha512 }
{}

/// A Digest field (RFC 3230, RFC 5843) with the SHA-256 of `abc`, in base64 and in hexadecimal digits, promises it.
pub fn digest_field_of_abc()
    ensures base64 { digest_field (codes "SHA-256=ungWv48Bz+pBQUDeXa4iI7ADYaOWF3qctBD/YfIAFa0=") ≡
        Some (record { sha256 = Some (sha256 (codes "abc")); sha512 = None }) }
    ensures hex { digest_field
        (codes "MD5=x, sha-256=BA7816BF8F01CFEA414140DE5DAE2223B00361A396177A9CB410FF61F20015AD") ≡
        Some (record { sha256 = Some (sha256 (codes "abc")); sha512 = None }) }
    ensures other { digest_field (codes "MD5=x, SHA=y, SHA-1=z") ≡ Some none_promised }
    ensures unpadded { digest_field (codes "SHA-256=ungWv48Bz+pBQUDeXa4iI7ADYaOWF3qctBD/YfIAFa0") ≡ None }
    ensures different { digest_field
        (codes "SHA-256=ungWv48Bz+pBQUDeXa4iI7ADYaOWF3qctBD/YfIAFa0=, "
        ++ codes "SHA-256=47DEQpj8HBSa+/TImW+5JCeuQeRkm5NMpJWZG3hSuFU=") ≡ None }
{}

/// The same with the SHA-512 of `abc`, alone and beside its SHA-256. One that is neither base64 of 64 octets nor 128
/// hexadecimal digits can't be read, as a SHA-256 in its place.
pub fn digest_field_of_abc_by_sha512()
    ensures base64 { digest_field (codes "SHA-512=" ++ abc_sha512_in_base64) ≡
        Some (record { sha256 = None; sha512 = Some (sha512 (codes "abc")) }) }
    ensures hex { digest_field (codes "MD5=x, sha-512=" ++ abc_sha512_in_digits) ≡
        Some (record { sha256 = None; sha512 = Some (sha512 (codes "abc")) }) }
    ensures both { digest_field
        (codes "SHA-512=" ++ abc_sha512_in_base64 ++ codes ", SHA-256=" ++ abc_sha256_in_base64) ≡
        Some (record { sha256 = Some (sha256 (codes "abc")); sha512 = Some (sha512 (codes "abc")) }) }
    ensures bad { digest_field
        (codes "SHA-256=ungWv48Bz+pBQUDeXa4iI7ADYaOWF3qctBD/YfIAFa0=, SHA-512=y") ≡ None }
    ensures short { digest_field (codes "SHA-512=ungWv48Bz+pBQUDeXa4iI7ADYaOWF3qctBD/YfIAFa0=") ≡ None }
{}
