ghost use Rattle.std.specs.Prelude.{◌≡◌, ◌++◌, OnOk};
ghost use Rattle.mz_layout_tables.specs.Normal.{header_bytes};

use crate::sections::{put_u32, put_zeros};
use mz_cmd::Mem;
use mz_layout_tables::Header;

/// Appends the header.
pub fn put_header(out: &mut Vec<u8>, header: Header) -> Result<(), Mem>
    ensures { OnOk result (out.new.items ≡ out.old.items ++ header_bytes header) }
{
    out.extend_from_slice(b"MM0B")?;
    out.extend_from_slice(&[1, header.sorts, 0, 0])?;
    put_u32(out, header.terms)?;
    put_u32(out, header.thms)?;
    put_u32(out, header.terms_at)?;
    put_u32(out, header.thms_at)?;
    put_u32(out, header.list_at)?;
    put_zeros(out, 12)
}
