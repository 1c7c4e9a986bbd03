// What is read wherever it stands: what may be missing, and lists.
use keyvalues::refusal::Refusal;
use mapparts::reader::Reader;

// 0, or the number + 1.
pub(crate) fn read_maybe(input: &mut Reader) -> Result<Option<u16>, Refusal> {
    let n = input.number()?;
    Ok(n.checked_sub(1))
}

// A count, and so many items. The count is handed back as it is, and what does not fit is dropped.
pub(crate) fn read_list<T: Copy, F: Fn(&mut Reader) -> Result<T, Refusal>>(
    input: &mut Reader,
    items: &mut [T],
    read: F,
) -> Result<u16, Refusal>
    requires { F.IsAlwaysCallable read }
{
    let count = input.number()?;
    let room = items.len();
    for item in items.iter_mut().take(count as usize) {
        *item = read(input)?;
    }
    for _ in room..count as usize {
        read(input)?;
    }
    Ok(count)
}
