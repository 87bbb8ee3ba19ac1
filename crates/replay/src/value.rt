// The functions of one value:
//
//     exp X = Y
//     ln X = Y
//     sqrt X = Y
//     gh_order ASKED = NUMBER
use replay_cases::words::{Value, Words};

pub fn judge_value<T: Value, F: Fn(T) -> T>(words: &mut Words<'_>, of: F) -> Option<bool>
    requires { F.IsAlwaysCallable of }
{
    let x = words.value()?;
    words.named(b"=")?;
    words.says(of(x))
}
