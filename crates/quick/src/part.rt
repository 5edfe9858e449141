// One page throughout a stretch, the versions from a up to, not including, b: its keys, and how many entries are alive.
ghost use Rattle.std.specs.Prelude.{◌≡◌, ℕ, Bool, true, suc, ◌+◌, ◌*◌, ◌-◌, ◌≤◌, min, length};
ghost use Rattle.model.specs.Basic.{all, those, in_order};
ghost use Rattle.model.specs.Entry.{before};
ghost use Rattle.model.specs.Layout.{read_entry, read_entries, decode_page};
ghost use Rattle.spans.specs.Quick.{kept, apart, low_over, key_over, many_over, fine_over, past_all};
ghost use Rattle.model.specs.Inner.{throughout};
ghost use Rattle.page.specs.Head.{read_head};
ghost use Rattle.notes.specs.Linked.{EntryRoom};
ghost use Rattle.quick.specs.Part.{end_fine, high_over, key_fine};

use model::Limits;

// Whether each key that is alive in the stretch is fine.
fn keys_each<F: Fn(u32) -> bool>(page: &[u8], n: usize, a: u32, b: u32, fine: F) -> bool
    requires { EntryRoom page.now n × F.IsAlwaysCallable fine }
    ensures { (f : ℕ → Bool) → ((x : ℕ) (r : Bool) → F.post fine x r → r ≡ f x)
        → result ≡ all (key_fine f a b) (read_entries page.now 128 n) }
{
    for i in 0..n {
        let e = page::entry_at(page, i);
        if crate::entry::meets(a, b, e) && !fine(e.key) {
            return false;
        }
    }
    true
}

// The live keys are at least low. Entries stand by key, so that where the first one's is all are.
fn low_over(page: &[u8], n: usize, low: u32, a: u32, b: u32) -> bool
    requires { EntryRoom page.now n × (in_order before (read_entries page.now 128 n) ≡ true) }
    ensures { result ≡ low_over low a b (read_entries page.now 128 n) }
{
    n == 0 || low <= page::entry_at(page, 0).key || keys_each(page, n, a, b, |k| low <= k)
}

// The live keys are under h. Entries stand by key, so that where the last one's is all are.
pub(crate) fn high_over(page: &[u8], n: usize, h: u32, a: u32, b: u32) -> bool
    requires { EntryRoom page.now n × (in_order before (read_entries page.now 128 n) ≡ true) }
    ensures { result ≡ high_over h a b (read_entries page.now 128 n) }
{
    n == 0 || page::entry_at(page, n - 1).key < h || keys_each(page, n, a, b, |k| k < h)
}

// An entry with the key k is alive throughout.
fn key_over(page: &[u8], n: usize, k: u32, a: u32, b: u32) -> bool
    requires { EntryRoom page.now n }
    ensures { result ≡ key_over k a b (read_entries page.now 128 n) }
{
    let mut t = a;
    for i in 0..n {
        if b <= t {
            return true;
        }
        let e = page::entry_at(page, i);
        if e.key == k {
            t = crate::entry::past(t, e);
        }
    }
    b <= t
}

// How far from a on the entries from place i on stand one after another, up to b.
pub(crate) fn past_behind(page: &[u8], n: usize, i: usize, a: u32, b: u32) -> u32
    requires { EntryRoom page.now n × (i ≤ n) }
    ensures { result ≡ min b (past_all a (read_entries page.now (128 + 96 * i) (n - i))) }
{
    let mut t = a;
    for k in i..n {
        if b <= t {
            return b;
        }
        let e = page::entry_at(page, k);
        t = crate::entry::past(t, e);
    }
    b.min(t)
}

// How many are alive from a on through z. Once there are m no more are counted.
fn through_count(page: &[u8], n: usize, m: usize, a: u32, z: u32) -> usize
    requires { EntryRoom page.now n }
    ensures { result ≡ min m (length (those (throughout a (suc z)) (read_entries page.now 128 n))) }
{
    let mut c = 0;
    for i in 0..n {
        if m <= c {
            return c;
        }
        if crate::entry::throughout(page::entry_at(page, i), a, z) {
            c += 1;
        }
    }
    c
}

// Where entry i ends inside the stretch, m are alive.
fn end_fine(page: &[u8], n: usize, i: usize, m: usize, a: u32, b: u32) -> bool
    requires { EntryRoom page.now n × (i + 1 ≤ n) }
    ensures { result ≡ end_fine m a b (read_entries page.now 128 n) (read_entry page.now (128 + 96 * i)) }
{
    let end = page::entry_at(page, i).end;
    end <= a || b <= end || m <= through_count(page, n, m, end, end)
}

fn ends_over(page: &[u8], n: usize, m: usize, a: u32, b: u32) -> bool
    requires { EntryRoom page.now n }
    ensures { result ≡ all (end_fine m a b (read_entries page.now 128 n)) (read_entries page.now 128 n) }
{
    (0..n).all(|i| end_fine(page, n, i, m, a, b))
}

// At least m entries are alive. Where so many are alive throughout no end needs a look.
fn many_over(page: &[u8], n: usize, m: usize, a: u32, b: u32) -> bool
    requires { EntryRoom page.now n }
    ensures { result ≡ many_over m a b (read_entries page.now 128 n) }
{
    (a < b && m <= through_count(page, n, m, a, b - 1))
        || (m <= through_count(page, n, m, a, a) && ends_over(page, n, m, a, b))
}

// A page to which a slot or a router leads throughout the stretch, with that low key.
pub(crate) fn fine_over(page: &[u8], l: Limits, m: usize, low: u32, a: u32, b: u32) -> bool
    requires { (length page.now ≡ 64 * l.least) × ((read_head l.least page.now).count ≤ 5 * l.least)
        × (in_order before (read_entries page.now 128 (read_head l.least page.now).count) ≡ true) }
    ensures { result ≡ fine_over m low a b (decode_page l.least page.now) }
{
    let h = page::head_of(page, l);
    low_over(page, h.count, low, a, b)
        && (h.level == 1 || key_over(page, h.count, low, a, b))
        && many_over(page, h.count, m, a, b)
}

// "No live key stands twice in a page", of the entries that have not ended by the oldest version. They stand in order, so that each to the
// next is enough.
pub(crate) fn all_apart(page: &[u8], n: usize, old: u32) -> bool
    requires { EntryRoom page.now n × (in_order before (read_entries page.now 128 n) ≡ true) }
    ensures { result ≡ in_order apart (kept old (read_entries page.now 128 n)) }
{
    let mut last = None;
    for i in 0..n {
        let e = page::entry_at(page, i);
        if old < e.end {
            if last.is_some_and(|d| !crate::entry::apart(d, e)) {
                return false;
            }
            last = Some(e);
        }
    }
    true
}
