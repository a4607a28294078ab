// The laws are there to be cited.

/// What holds of lexemes, vectors and queries.
#[test]
fn laws() {
    ts_base::encoding_tells_vector();
    ts_base::encoding_has_size();
    ts_base::keys_rise();
    ts_base::quoted_has_one_reading();
    ts_base::quoted_is_read_back();
    ts_base::words_are_one();
    ts_query::one_value();
    ts_query::one_answer();
    ts_query::distance_is_decimal();
    ts_query::prints_back();
    ts_query::fault_has_one_place();
    ts_query::fault_is_outside();
    ts_vector::normal_form_is_one();
    ts_vector::printed_text_is_read();
    ts_vector::bad_place_is_one();
    ts_vector::bad_bytes_are_no_encoding();
    ts_vector::text_has_one_list();
    ts_vector::text_has_one_value();
    ts_vector::fault_has_one_place();
    ts_vector::fault_is_outside();
    ts_vector::text_has_one_answer();
    ts_vector::join_has_one_answer();
    ts_vector::build_has_one_answer();
    ts_vector::position_has_its_number();
}

/// What holds of dictionaries, configurations and what is made by them.
#[test]
fn makers() {
    ts_parser::names_tell_types();
    ts_parser::numbers_tell_types();
    ts_parser::one_token_list();
    ts_parser::tokens_cover();
    ts_parser::tokens_few();
    ts_parser::tokens_between();
    ts_words::lines_have_one_reading();
    ts_synonym::lines_have_one_reading();
    ts_thesaurus::one_fits();
    ts_config::mapping_replaces_one();
    ts_config::simple_maps_all_but_blank();
    ts_config::phrases_are_whole();
    ts_config::parts_are_one();
    ts_config::tokens_are_parts();
    ts_config::placed_are_one();
    ts_config::positions_rise();
    ts_make::groups_are_one();
    ts_make::groups_keep_lexemes();
    ts_make::groups_are_near();
    ts_make::whole_trees_stay();
    ts_make::removal_keeps_the_rest();
    ts_make::removal_is_sound();
    ts_make::sketches_have_no_fewer();
    ts_make::vector_answer_is_one();
    ts_make::join_answer_is_one();
    ts_make::query_answer_is_one();
    ts_websearch::items_are_one();
    ts_websearch::rows_are_one();
    ts_websearch::web_answer_is_one();
}
