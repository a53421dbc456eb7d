// What the five records have in common.
ghost use Rattle.std.specs.Prelude.{◌≡◌, ℕ, List, ◌+◌, ◌≤◌, length};
ghost use Rattle.layout.specs.Page.{page_size};
ghost use Rattle.words.specs.Words.{splice};
ghost use Rattle.records.specs.Layout.{Layout, record_length, encoded, decoded, valid_fields};
ghost use Rattle.records.specs.Laws.{Kept};

// A record of N bytes: its fields, one behind another.
pub trait Record<const N: usize>: Copy {
    // The widths of its fields, the fields of a record, and the record of fields.
    ghost layout: { Layout };

    ghost fields: { Self → List ℕ };

    ghost of_fields: { List ℕ → Self };

    // The record at `at`.
    fn read_at(bytes: &[u8], at: usize) -> Self
        requires { at + N ≤ length bytes.now }
        ensures { result ≡ of_fields (decoded layout.widths bytes.now at) };

    // Writes the record at `at`.
    fn write_at(self, bytes: &mut [u8], at: usize)
        requires { at + N ≤ length bytes.old }
        ensures { bytes.new ≡ splice bytes.old at (encoded layout.widths (fields self)) };

    // Its bytes.
    final fn to_bytes(self) -> [u8; N]
        ensures { result ≡ encoded layout.widths (fields self) }
    {
        let mut bytes = [0u8; N];
        self.write_at(&mut bytes, 0);
        bytes
    }

    // Whether a record may have these fields.
    fn is_valid(self) -> bool
        ensures { result ≡ valid_fields layout (fields self) };

    // Its fields take N bytes.
    ghost size: { record_length layout.widths ≡ N };

    // That is no more than a page has.
    ghost short: { N ≤ page_size };

    // The record that is made of fields has those fields.
    ghost kept: { Kept layout fields of_fields };

    // A record is made again of its own fields.
    ghost back: { (x : Self) → of_fields (fields x) ≡ x };
}
