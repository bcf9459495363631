use super::*;

const TEXT: [u8; 10] = [0x00, 0x01, 0x02, 0x03, 0x04, 0x05, 0x06, 0x07, 0x08, 0x09];

#[test]
fn fields_by_place(rt: HostRuntime) {
    for (at, big, little) in [
        (0, Some(0x0001_0203), Some(0x0302_0100)),
        (6, Some(0x0607_0809), Some(0x0908_0706)),
        (7, None, None),
        (10, None, None),
        (u64::MAX, None, None),
    ] {
        assert_eq!(rt; be32(&TEXT, at), big, "at {at}");
        assert_eq!(rt; le32(&TEXT, at), little, "at {at}");
    }
    for (at, big, little) in [
        (0, Some(0x0001_0203_0405_0607), Some(0x0706_0504_0302_0100)),
        (2, Some(0x0203_0405_0607_0809), Some(0x0908_0706_0504_0302)),
        (3, None, None),
        (u64::MAX - 7, None, None),
    ] {
        assert_eq!(rt; be64(&TEXT, at), big, "at {at}");
        assert_eq!(rt; le64(&TEXT, at), little, "at {at}");
    }
    assert_eq!(rt;
        (be32_at(&TEXT, 6), le32_at(&TEXT, 6)),
        (0x0607_0809, 0x0908_0706)
    );
    assert_eq!(rt; be64_at(&TEXT, 2), 0x0203_0405_0607_0809);
    assert_eq!(rt; le64_at(&TEXT, 2), 0x0908_0706_0504_0302);
}

#[test]
fn words_behind_the_program(rt: HostRuntime) -> Result<(), std::test::Fail> {
    let mut words = Vec::new(rt.alloc());
    assert_eq!(rt; arguments(&words).len(), 0);
    for word in ["program", "", "path"] {
        assert_eq!(rt; arguments(&words).len(), words.len().saturating_sub(1));
        words.push(String::from_str(rt.alloc(), word)?)?;
    }
    let given = arguments(&words);
    assert_eq!(rt; given.len(), 2);
    assert_eq!(rt; (given[0].as_str(), given[1].as_str()), ("", "path"));
    Ok(())
}

#[test]
fn codes_in_order(rt: HostRuntime) {
    let statuses = [
        Status::Done,
        Status::NotSealed,
        Status::Usage,
        Status::SceneBad { line: 1, kind: 9 },
        Status::FileFault { item: 0 },
        Status::SinkFault,
        Status::Limit {
            which: Which::Calls,
            number: 4096,
        },
        Status::TrustBad {
            item: 1,
            number: 3,
            arg: 0,
        },
        Status::NoMemory,
    ];
    for (i, status) in statuses.iter().enumerate() {
        assert_eq!(rt; usize::from(code(status)), i, "{status:?}");
    }
}

#[test]
fn copies_are_equal(rt: HostRuntime) -> Result<(), std::test::Fail> {
    let octets = Octets::new(b"page".as_slice().to_vec(rt.alloc())?);
    let copy = octets.copy()?;
    assert_eq!(rt; copy.bytes(), b"page".as_slice());
    assert_eq!(rt; octets.bytes(), copy.bytes());
    Ok(())
}
