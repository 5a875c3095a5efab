//! The phases, and the kinds of block words, told apart.

/// The arms of a reader of load files: `$word` at a block word, and else `$at`, a macro, of the
/// phase. Each phase is written out, so that what `$at` asks of it is compiled for it alone.
#[macro_export]
macro_rules! by_phase {
    ($phase:expr, $word:expr, $at:ident) => {
        match $phase {
            $crate::Phase::FirstBlock | $crate::Phase::BlockWord => $word,
            $crate::Phase::NameCount => $at!($crate::Phase::NameCount),
            $crate::Phase::LongCount => $at!($crate::Phase::LongCount),
            $crate::Phase::ContentSize => $at!($crate::Phase::ContentSize),
            $crate::Phase::BssSize => $at!($crate::Phase::BssSize),
            $crate::Phase::Content { longs, owed } => $at!($crate::Phase::Content { longs, owed }),
            $crate::Phase::Payload { owed } => $at!($crate::Phase::Payload { owed }),
            $crate::Phase::GroupCount => $at!($crate::Phase::GroupCount),
            $crate::Phase::Target { owed } => $at!($crate::Phase::Target { owed }),
            $crate::Phase::Offset { target, owed } => $at!($crate::Phase::Offset { target, owed }),
            $crate::Phase::EntryWord => $at!($crate::Phase::EntryWord),
            $crate::Phase::Symbol { owed } => $at!($crate::Phase::Symbol { owed }),
            // Nothing is external in a load file.
            external => $at!(external),
        }
    };
}

/// `$at`, once for each kind of block that load files have, and for EXT of object files, so that
/// what it asks of the block word is compiled for that kind alone.
#[macro_export]
macro_rules! by_kind {
    ($kind:expr, $at:expr) => {
        match $kind {
            hunk_words::Kind::Name => $at,
            hunk_words::Kind::Code => $at,
            hunk_words::Kind::Data => $at,
            hunk_words::Kind::Bss => $at,
            hunk_words::Kind::Reloc32 => $at,
            hunk_words::Kind::Ext => $at,
            hunk_words::Kind::Symbol => $at,
            hunk_words::Kind::Debug => $at,
            hunk_words::Kind::End => $at,
            _ => $at,
        }
    };
}
