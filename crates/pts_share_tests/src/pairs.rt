// Two seats or passes, which stand in a vector at the opening and at the closing.

ghost use Rattle.std.specs.Prelude.{◌≡◌, ◌≤◌, [], ◌∷◌, length, vec_capacity};

/// Takes both out.
pub fn take_both<T>(items: &mut Vec<T>) -> (T, T)
    requires two { length items.old.items ≡ 2 }
    ensures both { items.old.items ≡ result.0 ∷ result.1 ∷ [] }
    ensures none { items.new.items ≡ [] }
    ensures room { 2 ≤ vec_capacity items.new }
{
    let Some(second) = items.pop() else {
        unreachable!()
    };
    let Some(first) = items.pop() else {
        unreachable!()
    };
    (first, second)
}

/// Puts both back.
pub fn put_both<T>(items: &mut Vec<T>, both: (T, T))
    requires none { items.old.items ≡ [] }
    requires room { 2 ≤ vec_capacity items.old }
    ensures both { items.new.items ≡ both.0 ∷ both.1 ∷ [] }
{
    let (first, second) = both;
    let pushed = items.push(first);
    let Ok(()) = pushed else { unreachable!() };
    let pushed = items.push(second);
    let Ok(()) = pushed else { unreachable!() };
}
