// Numbers in bytes, low byte first: all that is written or read as bytes goes through here.
ghost use Rattle.std.specs.Prelude.{◌≡◌, ◌+◌, ◌-◌, ◌*◌, ◌≤◌, true, ◌++◌, length, drop, replicate};
ghost use Rattle.device.specs.Rows.{bytes_of, number_of, numbers, row, width, with_bytes};
ghost use Rattle.wire.specs.Bytes.{Wrote, eights, form, narrow};

// The number that the `wide` bytes from `at` on are.
pub fn number_at(bytes: &[u8], at: usize, wide: usize) -> u64
    requires { (wide ≤ 8) × (at + wide ≤ length bytes.now) }
    ensures { result ≡ number_of wide (drop at bytes.now) }
{
    let mut word = [0; 8];
    word[0..wide].copy_from_slice(&bytes[at..at + wide]);
    u64::from_le_bytes(word)
}

// Writes a number into the `wide` bytes from `at` on.
pub fn put_number(out: &mut [u8], at: usize, wide: usize, n: u64)
    requires { (wide ≤ 8) × (at + wide ≤ length out.old) }
    ensures { out.new ≡ with_bytes out.old at (bytes_of wide n) }
{
    let word = n.to_le_bytes();
    out[at..at + wide].copy_from_slice(&word[0..wide]);
}

// The numbers that stand one behind another from `at` on, by a list of widths; zeros behind them.
// The widths are a bare slice: with a struct that says `narrow`, clauses would read `widths.entry.each.now` for `widths.now`, here and in `put_numbers`.
// The numbers stand in an array, since nothing is allocated, and are written by index: a proof knows nothing of what is written through a zipped `iter_mut`.
pub fn numbers_at(bytes: &[u8], at: usize, widths: &[usize]) -> [u64; 8]
    requires room { at + width widths.now ≤ length bytes.now }
    requires few { (length widths.now ≤ 8) × (narrow widths.now ≡ true) }
    ensures { result ≡ numbers widths.now (drop at bytes.now) ++ replicate (8 - length widths.now) 0 }
{
    let mut ns = [0; 8];
    let mut end = at;
    for (i, &wide) in widths.iter().enumerate() {
        ns[i] = number_at(bytes, end, wide);
        end += wide;
    }
    ns
}

// Writes numbers one behind another from `at` on, by a list of widths; says where they end.
pub fn put_numbers(out: &mut [u8], at: usize, widths: &[usize], ns: &[u64]) -> usize
    requires room { at + width widths.now ≤ length out.old }
    requires few { (length widths.now ≤ length ns.now) × (narrow widths.now ≡ true) }
    ensures after { out.new ≡ with_bytes out.old at (row widths.now ns.now) }
    ensures end { result ≡ at + width widths.now }
{
    let mut end = at;
    for (&wide, &n) in widths.iter().zip(ns) {
        put_number(out, end, wide, n);
        end += wide;
    }
    end
}

// The widths of so many numbers of eight bytes each.
pub(crate) fn eights(count: usize) -> &'static [usize]
    requires { count ≤ 8 }
    ensures is { result.now ≡ eights count }
    ensures few { (length result.now ≡ count) × ((width result.now ≡ 8 * count) × (narrow result.now ≡ true)) }
{
    &[8; 8][0..count]
}

// Writes a byte and numbers of eight bytes each at the beginning of `out`; says where they end.
pub fn put_form(out: &mut [u8], number: u8, ns: &[u64]) -> usize
    requires { (length ns.now ≤ 8) × (1 + 8 * length ns.now ≤ length out.old) }
    ensures after { out.new ≡ with_bytes out.old 0 (form number ns.now) }
    ensures end { result ≡ 1 + 8 * length ns.now }
{
    out[0] = number;
    put_numbers(out, 1, eights(ns.len()), ns)
}

// Writes them if there is room, and says how many bytes they are.
pub(crate) fn write_form(out: &mut [u8], number: u8, ns: &[u64]) -> Option<usize>
    requires { length ns.now ≤ 8 }
    ensures { Wrote out.old (form number ns.now) out.new result }
{
    if out.len() < 1 + 8 * ns.len() {
        return None;
    }
    Some(put_form(out, number, ns))
}
