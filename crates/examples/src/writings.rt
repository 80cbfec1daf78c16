// The worked writings.
use crate::STYLE;
use crate::line::put_line;
use lines::Printer;
use sise_serializer::{Call, Serializer};

// Each answer of the worked calls, `22` at the given threshold, and the text.
fn put_writing(out: &mut Printer, threshold: u64) {
    let calls = [
        Call::BeginList { break_line_at: 0 },
        Call::PutAtom {
            atom: b"z",
            break_line_at: u64::MAX,
        },
        Call::BeginList { break_line_at: 0 },
        Call::PutAtom {
            atom: b"1",
            break_line_at: u64::MAX,
        },
        Call::PutAtom {
            atom: b"22",
            break_line_at: threshold,
        },
        Call::EndList,
        Call::EndList,
        Call::Finish {
            insert_line_break: true,
        },
    ];
    let mut buf = [0; 64];
    let mut serializer = Serializer::new();
    for call in calls {
        let wrote = serializer.make_call(call, STYLE, &mut buf);
        serializer = wrote.serializer;
        put_line(out, b"offset", wrote.answer);
    }
    out.put_text(b"", buf.get(..serializer.position));
}

pub(crate) fn put_writings(out: &mut Printer) {
    put_writing(out, 4);
    put_writing(out, 5);
}
