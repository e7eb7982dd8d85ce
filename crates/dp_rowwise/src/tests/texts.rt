ghost use Rattle.dp_domain.specs.Domains.{Fits};

use super::*;

const UNSIZED: Domain = Domain::Ints {
    lo: 0,
    hi: 5,
    size: None,
};

const LIMITED: Domain = Domain::OptInts {
    lo: -MOST,
    hi: MOST,
};

fn numbered(alloc: Global, v: &Value) -> Result<Value, Fault> {
    let names = texts_of(alloc, &[b"007".as_slice(), b"12".as_slice()])?;
    let part = Categories::new(alloc, Domain::Texts, Metric::Symmetric, names)?;
    applied(alloc, part, v)
}

fn cast_texts(alloc: Global, v: &Value) -> Result<Value, Fault> {
    applied(alloc, Cast::new(Domain::Texts, Metric::Symmetric)?, v)
}

/// Different texts of two bytes, as many as asked for, at most 1,024.
fn many_texts(alloc: Global, count: usize) -> Result<Texts, NoMemory> {
    let mut texts = Vec::new(alloc);
    for high in 0..4_u8 {
        for low in 0..=255_u8 {
            if texts.len() < count {
                texts.push(Text::from_vec(Vec::from_slice(alloc, &[high, low])?))?;
            }
        }
    }
    Ok(Texts::from_vec(texts))
}

fn categories_fault(
    alloc: Global,
    domain: Domain,
    metric: Metric,
    texts: Texts,
) -> Option<MakeFault>
    requires { Fits domain }
{
    Categories::new(alloc, domain, metric, texts).err()
}

#[test]
fn casts_are_refused_by_their_row(rt: HostRuntime) {
    for (domain, metric, wanted) in [
        (UNSIZED, Metric::L1, Some(Refused::Kind)),
        (Domain::Texts, Metric::L1, Some(Refused::Metric)),
        (Domain::Texts, Metric::Symmetric, None),
    ] {
        assert!(rt; domain.fits());
        assert_eq!(rt; Cast::new(domain, metric).err(), wanted);
    }
}

#[test]
fn categories_are_refused_by_their_row(rt: HostRuntime) -> Result<(), NoMemory> {
    for (domain, metric, texts, wanted) in [
        (UNSIZED, Metric::L1, [].as_slice(), Some(MakeFault::Kind)),
        (
            Domain::Texts,
            Metric::L1,
            [].as_slice(),
            Some(MakeFault::Metric),
        ),
        (
            Domain::Texts,
            Metric::Symmetric,
            [].as_slice(),
            Some(MakeFault::Bound),
        ),
        (
            Domain::Texts,
            Metric::Symmetric,
            [b"a".as_slice(), b"a".as_slice()].as_slice(),
            Some(MakeFault::Bound),
        ),
        (
            Domain::Texts,
            Metric::Symmetric,
            [b"".as_slice()].as_slice(),
            None,
        ),
    ] {
        assert!(rt; domain.fits());
        let texts = texts_of(rt.alloc(), texts)?;
        assert_eq!(rt; categories_fault(rt.alloc(), domain, metric, texts), wanted);
    }
    for (count, wanted) in [(1_023, None), (1_024, Some(MakeFault::Bound))] {
        let texts = many_texts(rt.alloc(), count)?;
        let fault = categories_fault(rt.alloc(), Domain::Texts, Metric::Symmetric, texts);
        assert_eq!(rt; fault, wanted);
    }
    Ok(())
}

#[test]
fn texts_are_cast_and_numbered(rt: HostRuntime) -> Result<(), Fault> {
    let texts = Value::Texts(texts_of(
        rt.alloc(),
        &[
            b"12".as_slice(),
            b"12x".as_slice(),
            b"-0".as_slice(),
            b"".as_slice(),
            b"2147483648".as_slice(),
            b"2147483649".as_slice(),
            b"007".as_slice(),
            b"+5".as_slice(),
            b"-2147483648".as_slice(),
            b"-".as_slice(),
            b" 5".as_slice(),
        ],
    )?);
    let numbers = cast_texts(rt.alloc(), &texts)?;
    let wanted = [
        Some(12),
        None,
        Some(0),
        None,
        Some(MOST),
        None,
        Some(7),
        None,
        Some(-MOST),
        None,
        None,
    ];
    assert!(rt; is_optional(&numbers, &wanted));
    let places = numbered(rt.alloc(), &texts)?;
    assert!(rt; is_cats(&places, &[1, 2, 2, 2, 2, 2, 0, 2, 2, 2, 2]));
    Ok(())
}

#[test]
fn an_empty_list_stays_empty(rt: HostRuntime) -> Result<(), Fault> {
    let none = Value::Texts(Texts::new(rt.alloc()));
    let numbers = cast_texts(rt.alloc(), &none)?;
    assert!(rt; is_optional(&numbers, &[]));
    let left = applied(
        rt.alloc(),
        DropNone::new(LIMITED, Metric::Symmetric)?,
        &numbers,
    )?;
    assert!(rt; is_ints(&left, &[]));
    let places = numbered(rt.alloc(), &none)?;
    assert!(rt; is_cats(&places, &[]));
    Ok(())
}

#[test]
fn one_text_is_cast_and_numbered_as_in_a_list(rt: HostRuntime) -> Result<(), Fault> {
    let cast = Cast::new(Domain::Texts, Metric::Symmetric)?;
    let names = texts_of(rt.alloc(), &[b"007".as_slice(), b"12".as_slice()])?;
    let categories = Categories::new(rt.alloc(), Domain::Texts, Metric::Symmetric, names)?;
    for (text, number, place) in [
        (b"12".as_slice(), Some(12), 1),
        (b"007".as_slice(), Some(7), 0),
        (b"-5".as_slice(), Some(-5), 2),
        (b"12x".as_slice(), None, 2),
    ] {
        assert_eq!(rt; cast.number(text), number);
        assert_eq!(rt; categories.number(text), place);
    }
    Ok(())
}
