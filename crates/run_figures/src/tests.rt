use crate::push_figures;
use dlmalloc_chunks::{Extent, Kind};
use std::test::Fail;

/// Extents, by address, and the text of their figures.
struct Row {
    extents: &'static [Extent],
    text: &'static str,
}

const ROWS: [Row; 3] = [
    Row {
        extents: &[],
        text: "live 50\npeak 100\nused 0 0\nfree 0 0\ngreatest 0\noverhead 0\npermille 0\n",
    },
    Row {
        extents: &[
            Extent {
                at: 0x40_0000,
                size: 8176,
                kind: Kind::Free,
            },
            Extent {
                at: 0x40_1ff0,
                size: 64,
                kind: Kind::Used,
            },
            Extent {
                at: 0x40_2030,
                size: 57216,
                kind: Kind::Top,
            },
            Extent {
                at: 0x40_ffb0,
                size: 80,
                kind: Kind::Foot,
            },
        ],
        text: "live 50\npeak 100\nused 1 64\nfree 2 65392\ngreatest 57216\noverhead 80\npermille 125\ntree 9 1\n",
    },
    // Two small chunks of one size, the greatest small size, the least large one, and a victim, which is in no class.
    Row {
        extents: &[
            Extent {
                at: 0,
                size: 32,
                kind: Kind::Free,
            },
            Extent {
                at: 32,
                size: 32,
                kind: Kind::Used,
            },
            Extent {
                at: 64,
                size: 240,
                kind: Kind::Free,
            },
            Extent {
                at: 304,
                size: 32,
                kind: Kind::Used,
            },
            Extent {
                at: 336,
                size: 32,
                kind: Kind::Free,
            },
            Extent {
                at: 368,
                size: 32,
                kind: Kind::Used,
            },
            Extent {
                at: 400,
                size: 256,
                kind: Kind::Free,
            },
            Extent {
                at: 656,
                size: 32,
                kind: Kind::Used,
            },
            Extent {
                at: 688,
                size: 512,
                kind: Kind::Victim,
            },
            Extent {
                at: 1200,
                size: 80,
                kind: Kind::Record,
            },
        ],
        text: "live 50\npeak 100\nused 4 128\nfree 5 1072\ngreatest 512\noverhead 80\npermille 522\nsmall 32 2\nsmall 240 1\ntree 0 1\n",
    },
];

#[test]
fn figures_are_printed(rt: HostRuntime) -> Result<(), Fail> {
    for row in &ROWS {
        let mut text = String::new(rt.alloc());
        push_figures(&mut text, "", 50, 100, row.extents, "\n")?;
        assert_eq!(rt; text.as_str(), row.text);
    }
    Ok(())
}
