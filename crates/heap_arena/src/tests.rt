use super::*;
use heap_memory::{Allocator, Grant, GrantFault};
use std::test::Fail;

/// The answer to a request, if it is granted.
fn granted(base: u64, size: u64) -> Result<Grant, GrantFault> {
    Ok(Grant {
        base,
        size,
        flags: 0,
    })
}

#[test]
fn grants_come_from_the_front(rt: HostRuntime) -> Result<(), Fail> {
    let mut words = [0u64; 64];
    // a place for two grants
    let mut table = [0u64; 5];
    let mut arena = Arena::new(&mut words, &mut table, 0x10000);
    let rows = [
        ("the first", 128, granted(0x10000, 128), 16),
        ("too large", 400, Err(GrantFault::NoSpace), 16),
        ("behind the first", 256, granted(0x10080, 256), 48),
        ("no place in the table", 16, Err(GrantFault::NoSpace), 48),
    ];
    for (rule, size, answer, used) in rows {
        assert_eq!(rt; arena.alloc(size), answer, "{rule}");
        assert_eq!(rt; arena.used(), used, "{rule}");
    }
    assert!(rt; !arena.allocates_zeros());
    assert_eq!(rt; arena.page_size(), 4096);
    Ok(())
}

#[test]
fn words_behind_the_peak_were_never_touched(rt: HostRuntime) -> Result<(), Fail> {
    let mut words = [0u64; 64];
    let mut table = [0u64; 4];
    let mut arena = Arena::new(&mut words, &mut table, 0x10000);
    assert_eq!(rt; arena.touched(), 0);
    assert!(rt; arena.alloc(256).is_ok());
    assert_eq!(rt; arena.touched(), 32);
    // What was given back was still touched.
    assert!(rt; arena.free(0x10000, 256));
    assert_eq!(rt; (arena.used(), arena.touched()), (0, 32));
    assert!(rt; arena.alloc(128).is_ok());
    assert_eq!(rt; (arena.used(), arena.touched()), (16, 32));
    Ok(())
}

#[test]
fn several_arenas_are_one_system(rt: HostRuntime) -> Result<(), Fail> {
    let mut high = [0u64; 64];
    let mut high_table = [0u64; 4];
    let mut low = [0u64; 32];
    let mut low_table = [0u64; 4];
    let mut over = [0u64; 16];
    let mut taken = [0u64; 16];
    let mut taken_table = [0u64; 2];
    let mut third = [0u64; 16];
    let mut arenas = Arenas::<'_, 2>::new();
    assert_eq!(rt; arenas.alloc(16), Err(GrantFault::NoSpace));
    assert!(rt;
        arenas
            .add(Arena::new(&mut high, &mut high_table, 0x10000))
            .is_ok()
    );
    assert_eq!(rt; arenas.alloc(16), granted(0x10000, 16));
    assert!(rt;
        arenas
            .add(Arena::new(&mut low, &mut low_table, 0x8000))
            .is_ok()
    );
    assert_eq!(rt; arenas.len(), 2);
    let rows = [
        ("the lower has room", 208, granted(0x8000, 208)),
        ("48 bytes are left in it", 64, granted(0x10010, 64)),
        (
            "432 bytes are left in the higher",
            448,
            Err(GrantFault::NoSpace),
        ),
        ("the last places of the tables", 48, granted(0x80d0, 48)),
        ("no place in a table", 16, Err(GrantFault::NoSpace)),
    ];
    for (rule, size, answer) in rows {
        assert_eq!(rt; arenas.alloc(size), answer, "{rule}");
    }
    // Another arena is not taken if it is over the words of one, if it is in use, or if there are
    // two.
    let overlapping = Arena::new(&mut over, &mut [], 0x10180);
    assert_eq!(rt; reason(&arenas.add(overlapping)), Some(AddFault::Overlaps));
    let mut in_use = Arena::new(&mut taken, &mut taken_table, 0x20000);
    assert!(rt; in_use.alloc(16).is_ok());
    assert_eq!(rt; reason(&arenas.add(in_use)), Some(AddFault::InUse));
    let one_too_many = Arena::new(&mut third, &mut [], 0x20000);
    assert_eq!(rt; reason(&arenas.add(one_too_many)), Some(AddFault::NoPlace));
    assert_eq!(rt; arenas.len(), 2);
    Ok(())
}

#[test]
fn each_arena_tells_of_its_own_words(rt: HostRuntime) -> Result<(), Fail> {
    let mut high_words = [0u64; 16];
    let mut high_table = [0u64; 2];
    let mut low_words = [0u64; 8];
    let mut low_table = [0u64; 2];
    let mut high = Arena::new(&mut high_words, &mut high_table, 0x20000);
    assert!(rt; high.alloc(64).is_ok());
    assert!(rt; high.free(0x20000, 64));
    let low = Arena::new(&mut low_words, &mut low_table, 0x10000);
    let mut arenas = Arenas::<'_, 2>::new();
    assert!(rt; arenas.add(high).is_ok());
    assert!(rt; arenas.add(low).is_ok());
    assert_eq!(rt; arenas.alloc(32), granted(0x10000, 32));
    let rows = [
        ("the lower", 0, Some((0x10000, 4, 4))),
        (
            "the higher, to which a grant came back",
            1,
            Some((0x20000, 0, 8)),
        ),
        ("no third", 2, None),
    ];
    for (rule, place, answer) in rows {
        assert_eq!(rt; told(arenas.get(place)), answer, "{rule}");
    }
    Ok(())
}

/// Where an arena begins, how many of its words are in use, and how many ever were.
fn told(arena: Option<&Arena<'_>>) -> Option<(u64, usize, usize)> {
    match arena {
        Some(arena) => Some((arena.base(), arena.used(), arena.touched())),
        None => None,
    }
}

/// Why an arena was not taken.
fn reason(answer: &Result<(), (AddFault, Arena<'_>)>) -> Option<AddFault> {
    match answer {
        Ok(()) => None,
        Err((fault, _)) => Some(*fault),
    }
}

#[test]
fn refused_arenas_have_their_words(rt: HostRuntime) -> Result<(), Fail> {
    let table = [
        (AddFault::InUse, "the arena is in use"),
        (AddFault::Overlaps, "the arena overlaps another one"),
        (AddFault::NoPlace, "no place for a further arena"),
    ];
    for (fault, words) in table {
        let text = format!(in rt.alloc(); "{fault}")?;
        assert_eq!(rt; text.as_str(), words);
    }
    Ok(())
}
