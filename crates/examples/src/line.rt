// A line of output.
use lines::Printer;
use sise_parser::Refusal;

// `name: value`, or `name: refused number place`
pub(crate) fn put_line<E: Refusal>(out: &mut Printer, name: &[u8], answer: Result<usize, E>) {
    out.put_bytes(name);
    match answer {
        Ok(value) => out.put_letter(b':', value),
        Err(error) => out.put_refusal(b": refused", error, 2),
    }
    out.put_byte(b'\n');
}
