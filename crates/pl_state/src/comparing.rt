//! Whether two lists of words are the same, as a search asks of each state that it comes to again.

ghost use Rattle.std.specs.Prelude.{◌≡◌, ◌+◌, ◌<◌, ◌≤◌, true, false, length, drop, nat_eq};
ghost use Rattle.std.specs.Cmp.Lexicographic.{pointwise};
ghost use Rattle.pl_state.specs.Comparing.{AgreeBetween};

/// Whether they are the same words.
///
/// Words are compared in groups, and each group to its end, so that it is compared as a few vectors. The last
/// group ends with the words, and so may have words of the group before. From 2 to 32 words take one test.
#[inline]
pub fn are_equal(a: &[u32], b: &[u32]) -> bool
    ensures { result ≡ pointwise nat_eq a.now b.now }
{
    if a.len() != b.len() {
        return false;
    }
    if a.len() < 8 {
        return few_agree(a, b);
    }
    agree(a, b)
}

/// Whether fewer than 8 words of one length are the same.
fn few_agree(a: &[u32], b: &[u32]) -> bool
    requires few { length a.now < 8 }
    requires same { length a.now ≡ length b.now }
    ensures { result ≡ pointwise nat_eq a.now b.now }
{
    if a.len() >= 4 {
        return ends_agree(a, b, 4);
    }
    if a.len() >= 2 {
        return ends_agree(a, b, 2);
    }
    a == b
}

/// Whether 8 words or more, of one length, are the same.
fn agree(a: &[u32], b: &[u32]) -> bool
    requires many { 8 ≤ length a.now }
    requires same { length a.now ≡ length b.now }
    ensures { result ≡ pointwise nat_eq a.now b.now }
{
    if a.len() <= 16 {
        return ends_agree(a, b, 8);
    }
    if a.len() <= 32 {
        return ends_agree(a, b, 16);
    }
    many_agree(a, b)
}

/// Whether the words are the same, where so many at the front and as many at the end are all of them.
#[inline(always)]
fn ends_agree(a: &[u32], b: &[u32], count: usize) -> bool
    requires same { length a.now ≡ length b.now }
    requires many { count ≤ length a.now }
    requires all { length a.now ≤ count + count }
    ensures { result ≡ pointwise nat_eq a.now b.now }
{
    let from = a.len() - count;
    let end = behind(a, from);
    let other = behind(b, from);
    !pairs_differ(a, b, end, other, count)
}

/// Whether the first so many words of one pair differ somewhere, or those of the other. Each is looked at,
/// whatever those before it are.
#[inline(always)]
fn pairs_differ(a: &[u32], b: &[u32], c: &[u32], d: &[u32], count: usize) -> bool
    requires a { count ≤ length a.now }
    requires b { count ≤ length b.now }
    requires c { count ≤ length c.now }
    requires d { count ≤ length d.now }
    ensures apart { result ≡ true → a.now ≡ b.now → c.now ≡ d.now → ⊥ }
    ensures first { result ≡ false → AgreeBetween 0 count a.now b.now }
    ensures second { result ≡ false → AgreeBetween 0 count c.now d.now }
{
    let mut found = false;
    for i in 0..count {
        found |= (a[i] != b[i]) | (c[i] != d[i]);
    }
    found
}

/// Whether more than 32 words are the same, 32 at a time.
#[inline(always)]
fn many_agree(a: &[u32], b: &[u32]) -> bool
    requires many { 32 ≤ length a.now }
    requires same { length a.now ≡ length b.now }
    ensures { result ≡ pointwise nat_eq a.now b.now }
{
    let mut at = 0;
    while a.len() - at > 32 {
        if differ(a, b, at, 32) {
            return false;
        }
        at += 32;
    }
    if a.len() - at <= 8 {
        return last_agree(a, b, at, 8);
    }
    if a.len() - at <= 16 {
        return last_agree(a, b, at, 16);
    }
    last_agree(a, b, at, 32)
}

/// Whether the words are the same, where those before a place are, and at most so many are left.
#[inline(always)]
fn last_agree(a: &[u32], b: &[u32], _at: usize, count: usize) -> bool
    requires many { count ≤ length a.now }
    requires same { length a.now ≡ length b.now }
    requires left { length a.now ≤ _at + count }
    requires before { AgreeBetween 0 _at a.now b.now }
    ensures { result ≡ pointwise nat_eq a.now b.now }
{
    !differ(a, b, a.len() - count, count)
}

/// Whether so many words differ somewhere, from a place on.
#[inline(always)]
fn differ(a: &[u32], b: &[u32], from: usize, count: usize) -> bool
    requires a { from + count ≤ length a.now }
    requires b { from + count ≤ length b.now }
    ensures apart { result ≡ true → a.now ≡ b.now → ⊥ }
    ensures alike { result ≡ false → AgreeBetween from (from + count) a.now b.now }
{
    let left = behind(a, from);
    let right = behind(b, from);
    first_differ(left, right, count)
}

/// The words behind the first so many.
#[inline(always)]
fn behind(words: &[u32], count: usize) -> &[u32]
    requires { count ≤ length words.now }
    ensures { result.now ≡ drop count words.now }
{
    &words[count..]
}

/// Whether the first so many words differ somewhere. Each is looked at, whatever those before it are.
#[inline(always)]
fn first_differ(a: &[u32], b: &[u32], count: usize) -> bool
    requires a { count ≤ length a.now }
    requires b { count ≤ length b.now }
    ensures apart { result ≡ true → a.now ≡ b.now → ⊥ }
    ensures alike { result ≡ false → AgreeBetween 0 count a.now b.now }
{
    let mut found = false;
    for i in 0..count {
        found |= a[i] != b[i];
    }
    found
}
