//! The lines of a program that is drawn.

ghost use Rattle.std.specs.Prelude.{◌≡◌, ◌++◌, string_bytes, OnOk};
ghost use Rattle.atac_self.specs.Generation.{loop_body, test_body, switch_body, array_body, body, function_line, functions, call_text, calls, main_line};

use crate::draws::Draws;
use std::alloc::AllocError;
use std::fmt::Write;

// The body that loops up to a number.
fn put_loop(text: &mut String, n: u64) -> Result<(), AllocError>
    ensures { OnOk result (string_bytes text.new ≡ string_bytes text.old ++ loop_body n) }
{
    write!(text, "while(k<{n}){{x=x+k;k=k+1;}}")
}

// The body that compares with a number.
fn put_test(text: &mut String, n: u64) -> Result<(), AllocError>
    ensures { OnOk result (string_bytes text.new ≡ string_bytes text.old ++ test_body n) }
{
    write!(text, "if(x>{n})x=x-{n};else x=x+{n};")
}

// The body that chooses by the last two bits.
fn put_switch(text: &mut String) -> Result<(), AllocError>
    ensures { OnOk result (string_bytes text.new ≡ string_bytes text.old ++ switch_body) }
{
    text.push_str("switch(x&3){case 0:x=x+1;break;case 1:x=x+2;default:x=x+3;}")
}

// The body that writes the array, and reads it at a number.
fn put_array(text: &mut String, n: u64) -> Result<(), AllocError>
    ensures { OnOk result (string_bytes text.new ≡ string_bytes text.old ++ array_body n) }
{
    write!(text, "a[x&15]=x;k=a[{n}];x=x+(k&7);")
}

// A body: its kind is drawn, and then its number.
fn put_body(text: &mut String, draws: &mut Draws) -> Result<(), AllocError>
    ensures text { OnOk result (string_bytes text.new ≡ string_bytes text.old ++ (body draws.old.state).is) }
    ensures state { OnOk result (draws.new.state ≡ (body draws.old.state).state) }
{
    match draws.draw(4) {
        0 => put_loop(text, 1 + draws.draw(5)),
        1 => put_test(text, draws.draw(100)),
        2 => put_switch(text),
        _ => put_array(text, draws.draw(16)),
    }
}

// The line of the function of that number.
fn put_function(text: &mut String, i: u64, draws: &mut Draws) -> Result<(), AllocError>
    ensures text { OnOk result (string_bytes text.new ≡ string_bytes text.old ++ function_line i (body draws.old.state).is) }
    ensures state { OnOk result (draws.new.state ≡ (body draws.old.state).state) }
{
    write!(text, "int f{i}(int n){{int x;int k;x=n;k=0;")?;
    put_body(text, draws)?;
    text.push_str("return x;}\n")
}

/// Appends the lines of so many functions.
pub fn put_functions(text: &mut String, count: u64, draws: &mut Draws) -> Result<(), AllocError>
    ensures text { OnOk result (string_bytes text.new ≡ string_bytes text.old ++ (functions count draws.old.state).is) }
    ensures state { OnOk result (draws.new.state ≡ (functions count draws.old.state).state) }
{
    for i in 0..count {
        put_function(text, i + 1, draws)?;
    }
    Ok(())
}

// A call of the function of that number.
fn put_call(text: &mut String, i: u64) -> Result<(), AllocError>
    ensures { OnOk result (string_bytes text.new ≡ string_bytes text.old ++ call_text i) }
{
    write!(text, "s=(s+f{i}(c+s))&255;")
}

// A call of each of so many functions.
fn put_calls(text: &mut String, count: u64) -> Result<(), AllocError>
    ensures { OnOk result (string_bytes text.new ≡ string_bytes text.old ++ calls count) }
{
    for i in 0..count {
        put_call(text, i + 1)?;
    }
    Ok(())
}

/// Appends the line of `main`, which calls so many functions.
pub fn put_main(text: &mut String, count: u64) -> Result<(), AllocError>
    ensures { OnOk result (string_bytes text.new ≡ string_bytes text.old ++ main_line count) }
{
    text.push_str("int main(void){int c;int s;s=0;while((c=getchar())!=-1){")?;
    put_calls(text, count)?;
    text.push_str("}putchar(s);return 0;}\n")?;
    Ok(())
}
