// What a record and a tray hold.
ghost use Rattle.std.specs.Prelude.{◌≡◌, length};
ghost use Rattle.laws.specs.Out.{written};
ghost use Rattle.records.specs.Tray.{tray_of, tray_count};
ghost use Rattle.words.specs.Code.{code_of, none_of};
ghost use Rattle.words.specs.Read.{record_words};

use laws::Refusal;

// What a record says, in 17 words: width, height, chroma, depth, alpha; then of luma, Cb, Cr and alpha each where its bytes
// start, how many they are, and its stride. Refusals: the record's; 17 an answer below 17 words.
#[unsafe(no_mangle)]
pub extern "C" fn compose_record(record: &[u8], answer: &mut [u64]) -> u64
    ensures { (result ≡ code_of (none_of (record_words «record».now (length answer.old))))
        × (answer.new ≡ written (record_words «record».now (length answer.old)) answer.old) }
{
    match records::parse_record(record) {
        Err(e) => words::refusal_code(e),
        Ok(f) => {
            if answer.len() < 17 {
                return words::refusal_code(Refusal::ROOM);
            }
            let a = words::put_form(answer, f.form);
            let b = words::put_plane(answer, a, f.luma);
            let c = words::put_plane(answer, b, f.cb);
            let d = words::put_plane(answer, c, f.cr);
            words::put_plane(answer, d, f.alpha);
            0
        }
    }
}

// How many records a tray has. Refusals: the tray's.
#[unsafe(no_mangle)]
pub extern "C" fn compose_tray(tray: &[u8]) -> u64
    ensures { result ≡ code_of (tray_count (tray_of tray.now)) }
{
    match records::check_tray(tray) {
        Err(e) => words::refusal_code(e),
        Ok(n) => n as u64,
    }
}
