ghost use Rattle.std.specs.Prelude.{◌≡◌, false};
ghost use Rattle.ub_page.specs.Header.{IsHeader};
ghost use Rattle.ub_writing.specs.Marks.{IsMarkOf, is_written};

use ub_page::Header;

/// The mark of a table that is being changed: a header that says so, which goes out before any other page.
#[derive(Drop)]
pub enum Mark {
    /// No page was written since the table was opened: this header is to be written first.
    Due(Header),
    /// The table is marked as changed.
    Written,
}

impl Mark {
    /// The mark that is due of a closed table: the header that it has, but unclean.
    pub fn due(header: &Header) -> Mark
        requires { IsHeader header.now }
        ensures mark { IsMarkOf header.now.schema result }
        ensures due { is_written result ≡ false }
    {
        Mark::Due(Header {
            schema: header.schema.copy(),
            unclean: true,
            ..*header
        })
    }

    /// Whether the table is marked as changed.
    pub fn is_written(&self) -> bool
        ensures { result ≡ is_written self.now }
    {
        match self {
            Mark::Due(_) => false,
            Mark::Written => true,
        }
    }
}
