// Lists whose length is counted beside them: the items that count, and one more behind them.
ghost use Rattle.std.specs.Prelude.{◌≡◌, ◌∷◌, [], ◌++◌, ◌+◌, ◌<◌, ◌≤◌, length, take, slice_set, min, MatchOption};

// The first `count` items. A count past the end is the whole list.
pub fn front<T>(items: &[T], count: u16) -> &[T]
    ensures { result.now ≡ take count items.now }
{
    &items[..items.len().min(count as usize)]
}

// One more item behind the first `count`. The new count, or nothing where there is no room, or where the count can say no more.
pub fn append<T: Copy>(items: &mut [T], count: u16, item: T) -> Option<u16>
    ensures full { MatchOption result (min (length items.old) 65535 ≤ count) (λ n. (count < min (length items.old) 65535) × (n ≡ count + 1)) }
    ensures left { MatchOption result (items.new ≡ items.old) (λ _. items.new ≡ slice_set items.old count item) }
    ensures behind { MatchOption result (take count items.new ≡ take count items.old) (λ n. take n items.new ≡ take count items.old ++ (item ∷ [])) }
{
    let at = count as usize;
    if items.len() <= at {
        return None;
    }
    let more = count.checked_add(1)?;
    items[at] = item;
    Some(more)
}
