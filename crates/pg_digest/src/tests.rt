use super::*;

// Digests that other programs give.
const KNOWN: [(HashKind, &[u8], &[u8]); 8] = [
    (
        HashKind::Sha1,
        b"",
        b"\xda\x39\xa3\xee\x5e\x6b\x4b\x0d\x32\x55\xbf\xef\x95\x60\x18\x90\xaf\xd8\x07\x09",
    ),
    (
        HashKind::Sha1,
        b"abc",
        b"\xa9\x99\x3e\x36\x47\x06\x81\x6a\xba\x3e\x25\x71\x78\x50\xc2\x6c\x9c\xd0\xd8\x9d",
    ),
    (
        HashKind::Sha256,
        b"",
        b"\xe3\xb0\xc4\x42\x98\xfc\x1c\x14\x9a\xfb\xf4\xc8\x99\x6f\xb9\x24\
          \x27\xae\x41\xe4\x64\x9b\x93\x4c\xa4\x95\x99\x1b\x78\x52\xb8\x55",
    ),
    (
        HashKind::Sha256,
        b"abc",
        b"\xba\x78\x16\xbf\x8f\x01\xcf\xea\x41\x41\x40\xde\x5d\xae\x22\x23\
          \xb0\x03\x61\xa3\x96\x17\x7a\x9c\xb4\x10\xff\x61\xf2\x00\x15\xad",
    ),
    (
        HashKind::Sha256Short,
        b"",
        b"\xe3\xb0\xc4\x42\x98\xfc\x1c\x14\x9a\xfb\xf4\xc8\x99\x6f\xb9\x24\x27\xae\x41\xe4",
    ),
    (
        HashKind::Sha256Short,
        b"abc",
        b"\xba\x78\x16\xbf\x8f\x01\xcf\xea\x41\x41\x40\xde\x5d\xae\x22\x23\xb0\x03\x61\xa3",
    ),
    (
        HashKind::Sha384,
        b"",
        b"\x38\xb0\x60\xa7\x51\xac\x96\x38\x4c\xd9\x32\x7e\xb1\xb1\xe3\x6a\
          \x21\xfd\xb7\x11\x14\xbe\x07\x43\x4c\x0c\xc7\xbf\x63\xf6\xe1\xda\
          \x27\x4e\xde\xbf\xe7\x6f\x65\xfb\xd5\x1a\xd2\xf1\x48\x98\xb9\x5b",
    ),
    (
        HashKind::Sha384,
        b"abc",
        b"\xcb\x00\x75\x3f\x45\xa3\x5e\x8b\xb5\xa0\x3d\x69\x9a\xc6\x50\x07\
          \x27\x2c\x32\xab\x0e\xde\xd1\x63\x1a\x8b\x60\x5a\x43\xff\x5b\xed\
          \x80\x86\x07\x2b\xa1\xe7\xcc\x23\x58\xba\xec\xa1\x34\xc8\x25\xa7",
    ),
];

// Whether a digester gives this digest.
fn gives<D: Digester>(digester: &mut D, kind: HashKind, message: &[u8], digest: &[u8]) -> bool {
    digest_of(digest) == Some(digester.hash(kind, message))
}

#[test]
fn known_digests(rt: HostRuntime) {
    let mut digester = ShaDigester::new();
    for (kind, message, digest) in KNOWN {
        assert!(rt;
            gives(&mut digester, kind, message, digest),
            "{kind:?} of {message:?}"
        );
        assert_eq!(rt; usize::from(size(kind)), digest.len(), "{kind:?}");
    }
}

#[test]
fn kinds_by_number(rt: HostRuntime) {
    for (number, kind) in [
        (0, None),
        (1, Some(HashKind::Sha1)),
        (2, Some(HashKind::Sha256)),
        (3, Some(HashKind::Sha256Short)),
        (4, Some(HashKind::Sha384)),
        (5, None),
        (255, None),
    ] {
        assert_eq!(rt; kind_of(number), kind, "{number}");
    }
    assert_eq!(rt; crate::number(HashKind::Sha256Short), 3);
    assert!(rt; rank(HashKind::Sha1) < rank(HashKind::Sha256Short));
    assert!(rt; rank(HashKind::Sha256) < rank(HashKind::Sha384));
}

#[test]
fn longest_digest(rt: HostRuntime) {
    let bytes = [7; 49];
    assert_eq!(rt; digest_of(&bytes), None);
    let digest = digest_of(&bytes[..48]);
    assert_eq!(rt; digest.as_ref().map_or(0, |d| digest_bytes(d).len()), 48);
    assert_ne!(rt; digest, digest_of(&bytes[..47]));
}
