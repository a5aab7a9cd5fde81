// A mark for each of 65,536 cells, one bit a cell.
ghost use Rattle.std.specs.Prelude.{◌≡◌, ◌+◌, ◌-◌, ◌*◌, ◌/◌, ◌^◌, ◌≤◌, ◌<◌};
ghost use Rattle.session.specs.Marks.{is_marked, all_marked, any_word, clear_from};

pub fn marked(marks: &[u64; 1024], cell: u32) -> bool
    requires { cell < 65536 }
    ensures { result ≡ is_marked marks.now cell }
{
    (marks[(cell / 64) as usize] >> (cell % 64)) & 1 == 1
}

// Whether each of the first `count` cells is marked.
pub fn all_marked(marks: &[u64; 1024], count: u32) -> bool
    requires { count ≤ 65536 }
    ensures { result ≡ all_marked marks.now 0 count }
{
    for i in 0..count {
        if !marked(marks, i) {
            return false;
        }
    }
    true
}

// Whether a cell is marked.
pub fn any_marked(marks: &[u64; 1024]) -> bool
    ensures { result ≡ any_word marks.now 0 1024 }
{
    for word in marks {
        if *word != 0 {
            return true;
        }
    }
    false
}

// The marks of a word that are those of cells from `count` on.
fn past_count(word: u64, i: u32, count: u32) -> u64
    requires { (i < 1024) × (count < i * 64 + 64) }
    ensures { result ≡ word / 2 ^ (count - i * 64) }
{
    word >> count.saturating_sub(i * 64)
}

// Whether no cell from `count` on is marked.
pub fn none_beyond(marks: &[u64; 1024], count: u32) -> bool
    ensures { result ≡ clear_from marks.now count (count / 64) (1024 - count / 64) }
{
    for i in count / 64..1024 {
        if past_count(marks[i as usize], i, count) != 0 {
            return false;
        }
    }
    true
}
