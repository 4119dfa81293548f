//! Laws above the definitions. Each function does nothing: its contract is the law.

ghost use Rattle.kernel_tables.specs.Flush.{FlushedCachesAgree, ReloadedCachesAgree, CachesHideTheArea, TableCachesAgree};

/// A translation cache that agreed with the tables before a change agrees with them again, if the pages that the call names
/// are flushed.
pub fn flushed_caches_agree()
    ensures { FlushedCachesAgree }
{}

/// The same after a new CR3 in the place of that flush, if none of the pages that the call names was global.
pub fn reloaded_caches_agree()
    ensures { ReloadedCachesAgree }
{}

/// No translation cache that holds places of earlier states of the tables, flushed or not, shows the area to a user.
pub fn caches_hide_the_area()
    ensures { CachesHideTheArea }
{}

/// A cache of the entries that name tables needs no flush after a change of pages.
pub fn table_caches_agree()
    ensures { TableCachesAgree }
{}
