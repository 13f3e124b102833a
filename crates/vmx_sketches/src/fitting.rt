//! The range of an indirection table, tested at run time.
ghost use Rattle.std.specs.Prelude.{◌≡◌, ◌==◌, nat_lt};
ghost use Rattle.std.specs.List.{list_all};
ghost use Rattle.vmx_model.specs.Ranges.{fits_table as fits_table_by};

use vmx_shared_area::offsets::TABLE_SIZE;

/// Whether the first entries name so many queues and those behind them are 0.
pub fn fits_table(queues: u32, size: u16, table: [u8; TABLE_SIZE]) -> bool
    ensures fits { result ≡ fits_table_by queues size table }
{
    if usize::from(size) > TABLE_SIZE {
        return are_below(queues, &table);
    }
    let (front, back) = table.as_slice().split_at(usize::from(size));
    are_below(queues, front) && are_zero(back)
}

/// Whether each entry names one of so many queues.
fn are_below(queues: u32, entries: &[u8]) -> bool
    ensures below { result ≡ list_all (λ e. nat_lt e queues) entries.now }
{
    entries.iter().all(|entry| u32::from(*entry) < queues)
}

/// Whether each entry is 0.
fn are_zero(entries: &[u8]) -> bool
    ensures zero { result ≡ list_all (λ e. e == 0) entries.now }
{
    entries.iter().all(|entry| *entry == 0)
}
