//! Laws above the definitions. Each function does nothing: its contract is the law.

ghost use Rattle.guest_walk.specs.Laws.{WalksAsTheProcessor, PermitsAsTheProcessor};

/// With no-execute on and bit 8 reserved the walk is that of `paging_core::translate`, whatever else the mode has.
pub fn walks_as_the_processor()
    ensures { WalksAsTheProcessor }
{}

/// With write protection and no-execute on, and SMEP and SMAP off, an access is granted as `paging_core::access_byte` has it.
pub fn permits_as_the_processor()
    ensures { PermitsAsTheProcessor }
{}
