// Laws of thin calls: a struct that its owner lends by `&mut` or `&`, and a call over a function that takes it by value. Whatever the function promises of the
// struct by value holds of the lent one.
#![tactic(auto)]

// By a mutable reference: the function gives the struct as the call leaves it, and an answer.
pub fn change<D: Copy, R, F: FnOnce(D) -> (D, R)>(d: &mut D, by: F) -> R
    requires { F.pre by d.old }
    ensures { F.post by d.old (d.new, result) }
{
    let (left, answer) = by(*d);
    *d = left;
    answer
}

// The same, where a function of the answer is handed on.
pub fn change_and_tell<D: Copy, T, R, F: FnOnce(D) -> (D, T), G: FnOnce(T) -> R>(
    d: &mut D,
    by: F,
    tell: G,
) -> R
    requires asks { F.pre by d.old }
    requires tells { (e : D) → (t : T) → F.post by d.old (e, t) → G.pre tell t }
    ensures { (t : T) × F.post by d.old (d.new, t) × G.post tell t result }
{
    let (left, answer) = by(*d);
    *d = left;
    tell(answer)
}

// By a shared reference.
pub fn look<D: Copy, R, F: FnOnce(D) -> R>(d: &D, by: F) -> R
    requires { F.pre by d.now }
    ensures { F.post by d.now result }
{
    by(*d)
}

#[cfg(test)]
mod tests {
    use super::*;

    #[test]
    fn each_at_a_number(rt: HostRuntime) {
        let mut n = 7u32;
        assert_eq!(rt; change(&mut n, |d: u32| (d / 2, d % 2)), 1);
        assert_eq!(rt; n, 3);
        assert_eq!(rt;
            change_and_tell(&mut n, |d: u32| (d / 2, d % 2), |t: u32| t == 1),
            true
        );
        assert_eq!(rt; n, 1);
        assert_eq!(rt; look(&n, |d: u32| d == 1), true);
    }
}
