// Tests on numbers and on rows of them.
ghost use Rattle.std.specs.Prelude.{◌≡◌, ◌<◌, ◌^◌, ◌==◌, length, position, unwrap_or};
ghost use Rattle.terms.specs.Numbers.{all_within as each_within, distinct as no_repeats, listed as stands_in, place as place_of, sum as added_up, within as in_range};

// All numbers added up, where they are few enough for it.
pub fn sum(numbers: &[u32]) -> u32
    requires { added_up numbers.now < 2 ^ 32 }
    ensures { result ≡ added_up numbers.now }
{
    numbers.iter().sum()
}

// Whether a number is from 1 to the most.
pub fn within(most: u32, n: u32) -> bool
    ensures { result ≡ in_range most n }
{
    1 <= n && n <= most
}

// Whether each number is from 1 to the most.
pub fn all_within(most: u32, numbers: &[u32]) -> bool
    ensures { result ≡ each_within most numbers.now }
{
    numbers.iter().all(|n| within(most, *n))
}

// The place of the first number that equals `n`.
pub fn place(numbers: &[u32], n: u32) -> Option<usize>
    ensures found { result ≡ position (λ m. m == n) numbers.now }
    ensures place { unwrap_or result (length numbers.now) ≡ place_of numbers.now n }
{
    first_equal(numbers, n)
}

// The same in the library's words alone, in which its proof is found.
fn first_equal(numbers: &[u32], n: u32) -> Option<usize>
    ensures { result ≡ position (λ m. m == n) numbers.now }
{
    numbers.iter().position(|m| *m == n)
}

// Whether `n` is one of the numbers.
pub fn listed(n: u32, numbers: &[u32]) -> bool
    ensures { result ≡ stands_in n numbers.now }
{
    numbers.contains(&n)
}

// Whether no number stands twice.
pub fn distinct(numbers: &[u32]) -> bool
    ensures { result ≡ no_repeats numbers.now }
{
    let mut rest = numbers;
    while let Some((n, others)) = rest.split_first() {
        if listed(*n, others) {
            return false;
        }
        rest = others;
    }
    true
}
