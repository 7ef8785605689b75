// Writing into the lent output: each function writes from the front of it on and answers how many bytes it wrote.
ghost use Rattle.std.specs.Prelude.{◌≡◌, [], ◌∷◌, ◌++◌, ◌≤◌, length};
ghost use Rattle.lines.specs.Number.{digits, decimal};
ghost use Rattle.lines.specs.Reply.{replied, text};
ghost use Rattle.lines.specs.Session.{renewed};

use crate::table::Reply;
use bitmap::Refusal;

// The bytes of t.
fn put_text(out: &mut [u8], t: &[u8]) -> usize
    requires { length t.now ≤ length out.old }
    ensures value { result ≡ length t.now }
    ensures out_after { out.new ≡ renewed t.now out.old }
{
    let n = t.len();
    out[..n].copy_from_slice(t);
    n
}

// The last k digits of n, with no 0 in front. By hand: std's `write!` of a number into lent bytes promises none of them.
fn put_digits(out: &mut [u8], k: usize, n: usize) -> usize
    requires { length (digits k n) ≤ length out.old }
    ensures value { result ≡ length (digits k n) }
    ensures out_after { out.new ≡ renewed (digits k n) out.old }
{
    if k == 0 {
        return 0;
    }
    if n < 10 {
        out[0] = b'0' + n as u8;
        return 1;
    }
    let count = put_digits(out, k - 1, n / 10);
    out[count] = b'0' + (n % 10) as u8;
    count + 1
}

// A name, a number and the line end.
fn put_named(out: &mut [u8], name: &[u8], n: usize) -> usize
    requires { length (name.now ++ (decimal n ++ (10 ∷ []))) ≤ length out.old }
    ensures value { result ≡ length (name.now ++ (decimal n ++ (10 ∷ []))) }
    ensures out_after { out.new ≡ renewed (name.now ++ (decimal n ++ (10 ∷ []))) out.old }
{
    let start = put_text(out, name);
    let count = put_digits(&mut out[start..], 5, n);
    let end = start + count;
    out[end] = b'\n';
    end + 1
}

// A reply, or a refusal.
#[tactic(auto, unfolding(crate::specs::Reply::text))]
pub fn put_reply(out: &mut [u8], reply: Result<Reply, Refusal>) -> usize
    requires { length (text (replied reply)) ≤ length out.old }
    ensures value { result ≡ length (text (replied reply)) }
    ensures out_after { out.new ≡ renewed (text (replied reply)) out.old }
{
    match reply {
        Ok(Reply::Map(n, _)) => put_named(out, b"map ", n),
        Ok(Reply::At(p)) => put_named(out, b"at ", p),
        Ok(Reply::Done) => put_text(out, b"ok\n"),
        Ok(Reply::Yes) => put_text(out, b"yes\n"),
        Ok(Reply::Not) => put_text(out, b"not\n"),
        Err(r) => put_named(out, b"no ", bitmap::number(r)),
    }
}
