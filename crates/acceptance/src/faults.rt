// The faults of loading, of the tree, of stores and of pages: they are displayed in the very words that the program prints after
// `! `, which its contracts tell.
use std::alloc::Global;
use ub_load::LoadFault;
use ub_store::StoreFault;
use ub_table::PageFault;
use ub_tree::TreeFault;

// Faults, and how they are displayed.
static SHOWN: [(LoadFault, &str); 24] = [
    (LoadFault::NoHeader, "NoHeader"),
    (LoadFault::BadName(0), "BadName table"),
    (LoadFault::BadName(3), "BadName column 3"),
    (LoadFault::ColumnCount, "ColumnCount"),
    (
        LoadFault::BadNumber { row: 12, column: 3 },
        "BadNumber row 12 column 3",
    ),
    (
        LoadFault::OutOfRange { row: 12, column: 3 },
        "OutOfRange row 12 column 3",
    ),
    (LoadFault::Csv, "Csv"),
    (LoadFault::Memory, "Memory"),
    (LoadFault::Tree(TreeFault::Full), "Full"),
    (LoadFault::Tree(TreeFault::Failed), "Device"),
    (LoadFault::Tree(TreeFault::Memory), "Memory"),
    (
        LoadFault::Tree(TreeFault::Store(StoreFault::Device)),
        "Device",
    ),
    (
        LoadFault::Tree(TreeFault::Store(StoreFault::NoPage)),
        "NoPage",
    ),
    (
        LoadFault::Tree(TreeFault::Store(StoreFault::BadSize)),
        "BadSize",
    ),
    (
        LoadFault::Tree(TreeFault::Store(StoreFault::Memory)),
        "Memory",
    ),
    (
        LoadFault::Tree(TreeFault::Page {
            page: 7,
            fault: PageFault::WrongKind,
        }),
        "WrongKind page 7",
    ),
    (
        LoadFault::Tree(TreeFault::Page {
            page: 7,
            fault: PageFault::OldFormat,
        }),
        "OldFormat page 7",
    ),
    (
        LoadFault::Tree(TreeFault::Page {
            page: 7,
            fault: PageFault::Unclean,
        }),
        "Unclean page 7",
    ),
    (
        LoadFault::Tree(TreeFault::Page {
            page: 7,
            fault: PageFault::BadCount,
        }),
        "BadCount page 7",
    ),
    (
        LoadFault::Tree(TreeFault::Page {
            page: 7,
            fault: PageFault::BadName,
        }),
        "BadName page 7",
    ),
    (
        LoadFault::Tree(TreeFault::Page {
            page: 7,
            fault: PageFault::BadRow,
        }),
        "BadRow page 7",
    ),
    (
        LoadFault::Tree(TreeFault::Page {
            page: 7,
            fault: PageFault::BadOrder,
        }),
        "BadOrder page 7",
    ),
    (
        LoadFault::Tree(TreeFault::Page {
            page: 7,
            fault: PageFault::OutOfRegion,
        }),
        "OutOfRegion page 7",
    ),
    (
        LoadFault::Tree(TreeFault::Page {
            page: 7,
            fault: PageFault::BadPadding,
        }),
        "BadPadding page 7",
    ),
];

// Whether a fault is displayed as this text.
fn is_shown(alloc: Global, fault: &LoadFault, text: &str) -> bool {
    match format!(in alloc; "{fault}") {
        Ok(shown) => shown.as_str() == text,
        Err(_) => false,
    }
}

#[test]
fn are_displayed_in_known_words(rt: HostRuntime) {
    for (fault, text) in &SHOWN {
        assert!(rt; is_shown(rt.alloc(), fault, text), "{text}");
    }
}
