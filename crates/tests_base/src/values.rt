use rip_values::*;
use std::alloc;
use std::test::Fail;

/// Whether a pool has this text at its span, and finds it there.
fn is_fixed(alloc: alloc::Global, pool: &Pool, fixed: FixedText) -> Result<bool, Fail> {
    let text = Units::from_utf8(alloc, fixed.text().as_bytes())?;
    Ok(
        pool.fixed(text.as_slice()) == Some(fixed.span())
            && pool.get(fixed.span()) == text.as_slice(),
    )
}

#[test]
fn fixed_texts_stand_in_each_pool(rt: HostRuntime) -> Result<(), Fail> {
    let pool = Pool::make(rt.alloc(), 5, 65_535)?;
    assert_eq!(rt; (pool.text_limit(), pool.limit()), (65_535, 5));
    for fixed in &FIXED_TEXTS {
        assert!(rt; is_fixed(rt.alloc(), &pool, *fixed)?, "{fixed:?}");
    }
    assert_eq!(rt; pool.fixed(&[0x4C, 0x65]), None);
    Ok(())
}
