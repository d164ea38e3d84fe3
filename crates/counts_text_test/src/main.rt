// Runs many texts through `counts_text::run` and prints what it answers to each, a line with a hyphen
// after each answer. The file stdin holds the texts, each with one byte more behind it: 29 behind a text
// that is run as it is, 30 and 31 behind one that is first filled up with zeros and a newline to 65536 and
// to 65537 bytes, and 28 behind a heading, which is only printed. The file stdout holds what this must
// print.
#![tactic(auto)]

ghost use Rattle.std.specs.Prelude.{◌≤◌};

// Reads the file stdin, which is no longer than the room for it.
fn main() {
    let mut input = [0u8; 65536];
    let got = io::read_full(0, &mut input);
    show_all(&input[..got]);
}

// Shows each text that is in the input.
fn show_all(input: &[u8]) {
    for marked in input.split_inclusive(|byte| (28..=31).contains(byte)) {
        if let Some((mark, text)) = marked.split_last() {
            show_marked(text, *mark);
        }
    }
}

// Shows a text as the byte behind it says.
fn show_marked(text: &[u8], mark: u8) {
    match mark {
        28 => {
            io::write_all(1, text);
        }
        29 => show(text),
        30 => show_filled::<65536>(text),
        31 => show_filled::<65537>(text),
        _ => {}
    }
}

// Shows a text of so many bytes: those in front, zeros and a newline.
fn show_filled<const SIZE: usize>(front: &[u8])
    requires { SIZE ≤ 65537 }
{
    let mut text = [b'0'; SIZE];
    for (place, byte) in text.iter_mut().zip(front) {
        *place = *byte;
    }
    if let Some(last) = text.last_mut() {
        *last = b'\n';
    }
    show(&text);
}

// Shows what is answered to a text.
fn show(text: &[u8]) {
    let mut out = [0u8; 16384];
    let written = counts_text::run(text, &mut out);
    io::write_all(1, &out[..written]);
    io::write_all(1, b"-\n");
}
