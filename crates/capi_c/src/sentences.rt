// The sentence of a refusal.
ghost use Rattle.std.specs.Prelude.{◌≡◌, length};
ghost use Rattle.laws.specs.Out.{answer_of, written};
ghost use Rattle.sentence.specs.Sentence.{sentence_run};
ghost use Rattle.words.specs.Code.{answer_code};

#[unsafe(no_mangle)]
pub extern "C" fn compose_sentence(
    number: u32,
    sort: u8,
    index: u64,
    language: u8,
    out: &mut [u8],
) -> u64
    ensures { (result ≡ answer_code (answer_of (sentence_run number sort index language (length out.old))))
        × (out.new ≡ written (sentence_run number sort index language (length out.old)) out.old) }
{
    capi::sentences::compose_sentence(number, sort, index, language, out)
}
