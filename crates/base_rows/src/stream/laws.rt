use stream_laws::{laws, message_laws, reader_laws};
use v2_client::frame_laws;

// Each law can be cited.
#[test]
fn of_the_stream() {
    laws::no_spelling_begins_another();
    laws::one_verdict();
    laws::whole_is_spelled();
    laws::scripts_go_on();
    laws::one_script();
    laws::every_stream_has_a_script();
    laws::canonical_is_spelling();
    reader_laws::any_pieces_are_one_stream();
    reader_laws::answers_take_what_is_left();
    message_laws::message_bytes_are_one();
    frame_laws::one_row_of_frames();
    frame_laws::frames_go_on();
}
