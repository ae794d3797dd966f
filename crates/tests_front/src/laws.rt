use pz_lexer::one_answer;

#[test]
fn a_text_has_one_answer() {
    one_answer();
}
